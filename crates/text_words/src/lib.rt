// Bytes, numbers and words, each written behind what a text has so far, in memory of the text's own; in `lent`, into a lent buffer.
#![tactic(auto)]

ghost use Rattle.std.specs.Prelude.{◌≡◌, true, ℕ, ◌+◌, ◌≤◌, pos, nat_abs, List, [], ◌++◌, length, take};
ghost use Rattle.std.specs.Int.Signed.{lt_z};
ghost use Rattle.text.specs.Text.{decimal, signed};
ghost use Rattle.text_words.specs.Room.{number_room, signed_room};

pub mod lent;
pub mod room;

use std::marker::Model;

// A negative number without its sign.
pub fn magnitude(n: i64) -> u64
    requires { lt_z n (pos 0) ≡ true }
    ensures { result ≡ nat_abs n }
{
    n.unsigned_abs()
}

// A text of at most N bytes.
#[derive(Drop)]
pub struct Text<const N: usize> {
    out: [u8; N],
    len: usize,
}

// Clauses see the bytes that were written.
impl<const N: usize> Model for Text<N> {
    ghost Value = { List ℕ };

    ghost view = { λ t. take t.len t.out };

    ghost invariant = { λ t. t.len ≤ N };
}

impl<const N: usize> Text<N> {
    pub fn new() -> Self
        ensures { result ≡ [] }
    {
        Text {
            out: [0; N],
            len: 0,
        }
    }

    pub fn as_bytes(&self) -> &[u8]
        ensures text { result.now ≡ self.now }
        ensures room { length result.now ≤ N }
    {
        &self.out[..self.len]
    }

    // Bytes as they are.
    pub fn bytes(&mut self, bytes: &[u8])
        requires { length self.old + length bytes.now ≤ N }
        ensures { self.new ≡ self.old ++ bytes.now }
    {
        let end = self.len + bytes.len();
        let out = &mut self.out[..];
        out[self.len..end].copy_from_slice(bytes);
        self.len = end;
    }

    // A number's digits.
    pub fn number(&mut self, n: u64)
        requires { length self.old + number_room ≤ N }
        ensures text { self.new ≡ self.old ++ decimal n }
        ensures room { length self.new ≤ length self.old + number_room }
    {
        let mut digits = [0u8; 20];
        let count = io::decimal(n, &mut digits);
        self.bytes(&digits[..count]);
    }

    // A number with its sign, where it is negative.
    pub fn signed(&mut self, n: i64)
        requires { length self.old + signed_room ≤ N }
        ensures text { self.new ≡ self.old ++ signed n }
        ensures room { length self.new ≤ length self.old + signed_room }
    {
        if n < 0 {
            self.bytes(b"-");
            return self.number(magnitude(n));
        }
        self.number(n.unsigned_abs())
    }

    // A word and a number.
    pub fn figure(&mut self, word: &[u8], n: u64)
        requires { length self.old + length word.now + number_room ≤ N }
        ensures text { self.new ≡ self.old ++ (word.now ++ decimal n) }
        ensures room { length self.new ≤ length self.old + length word.now + number_room }
    {
        self.bytes(word);
        self.number(n);
    }

    pub fn signed_figure(&mut self, word: &[u8], n: i64)
        requires { length self.old + length word.now + signed_room ≤ N }
        ensures text { self.new ≡ self.old ++ (word.now ++ signed n) }
        ensures room { length self.new ≤ length self.old + length word.now + signed_room }
    {
        self.bytes(word);
        self.signed(n);
    }
}
