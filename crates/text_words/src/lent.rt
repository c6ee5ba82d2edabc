// Bytes, numbers and words written into a lent buffer from a place on. Each function answers the place behind what it wrote.

ghost use Rattle.std.specs.Prelude.{◌≡◌, ◌++◌, ◌+◌, ◌≤◌, length};
ghost use Rattle.text.specs.Text.{decimal, signed};
ghost use Rattle.text_words.specs.Put.{Put};
ghost use Rattle.text_words.specs.Room.{number_room, signed_room};

use crate::Text;
use crate::room::{NUMBER_ROOM, SIGNED_ROOM};

// Bytes as they are.
pub fn put_bytes(out: &mut [u8], at: usize, bytes: &[u8]) -> usize
    requires { at + length bytes.now ≤ length out.old }
    ensures { Put out.old at bytes.now out.new result }
{
    let end = at + bytes.len();
    out[at..end].copy_from_slice(bytes);
    end
}

// A text that was made in room of its own: where that room is free behind the place, what the text has fits.
pub fn put_text<const N: usize>(out: &mut [u8], at: usize, text: &Text<N>) -> usize
    requires { at + N ≤ length out.old }
    ensures text { Put out.old at text.now out.new result }
    ensures room { result ≤ at + N }
{
    put_bytes(out, at, text.as_bytes())
}

// A number's digits.
pub fn put_number(out: &mut [u8], at: usize, n: u64) -> usize
    requires { at + number_room ≤ length out.old }
    ensures { Put out.old at (decimal n) out.new result × (result ≤ at + number_room) }
{
    let mut text = Text::<NUMBER_ROOM>::new();
    text.number(n);
    put_text(out, at, &text)
}

// A number with its sign, where it is negative.
pub fn put_signed(out: &mut [u8], at: usize, n: i64) -> usize
    requires { at + signed_room ≤ length out.old }
    ensures { Put out.old at (signed n) out.new result × (result ≤ at + signed_room) }
{
    let mut text = Text::<SIGNED_ROOM>::new();
    text.signed(n);
    put_text(out, at, &text)
}

// A word and a number.
pub fn put_figure(out: &mut [u8], at: usize, word: &[u8], n: u64) -> usize
    requires { at + length word.now + number_room ≤ length out.old }
    ensures { Put out.old at (word.now ++ decimal n) out.new result × (result ≤ at + length word.now + number_room) }
{
    let next = put_bytes(out, at, word);
    put_number(out, next, n)
}

pub fn put_signed_figure(out: &mut [u8], at: usize, word: &[u8], n: i64) -> usize
    requires { at + length word.now + signed_room ≤ length out.old }
    ensures { Put out.old at (word.now ++ signed n) out.new result × (result ≤ at + length word.now + signed_room) }
{
    let next = put_bytes(out, at, word);
    put_signed(out, next, n)
}
