// What the program `statement` prints for its input, written into lent buffers. Each function answers the place behind what it wrote.

ghost use Rattle.std.specs.Prelude.{◌≡◌, ◌+◌, ◌≤◌, length, take};
ghost use Rattle.io.specs.Counts.{IsPrefixLen};
ghost use Rattle.images.specs.Image.{image_check};
ghost use Rattle.text.specs.Text.{statement_text, image_text, joined_text, program_text};
ghost use Rattle.text_words.specs.Put.{Put};
ghost use Rattle.text_lines.specs.Room.{text_room};

use crate::TEXT_ROOM;
use layout::Image;
use text_words::Text;
use text_words::lent::put_text;

// The statement of a checked image.
pub fn put_statement(out: &mut [u8], at: usize, image: &Image) -> usize
    requires { (at + text_room ≤ length out.old) × (image_check image.now ≡ 0) }
    ensures { Put out.old at (statement_text image.now) out.new result × (result ≤ at + text_room) }
{
    let mut text = Text::<TEXT_ROOM>::new();
    crate::put_statement(&mut text, image);
    put_text(out, at, &text)
}

// The same of any bytes, or a refusal.
pub fn put_image(out: &mut [u8], image: &[u8]) -> usize
    requires { text_room ≤ length out.old }
    ensures { Put out.old 0 (image_text image.now) out.new result × (result ≤ text_room) }
{
    let mut text = Text::<TEXT_ROOM>::new();
    crate::put_image(&mut text, image);
    put_text(out, 0, &text)
}

// Own image with the other merged into it first.
pub fn put_joined(out: &mut [u8], own: &mut [u8], other: &[u8]) -> usize
    requires { text_room ≤ length out.old }
    ensures { Put out.old 0 (joined_text own.old other.now) out.new result × (result ≤ text_room) }
{
    let mut text = Text::<TEXT_ROOM>::new();
    crate::put_joined(&mut text, own, other);
    put_text(out, 0, &text)
}

// What is printed for an input, at the start of out; own is room for an image.
pub fn put_program(out: &mut [u8], own: &mut Image, input: &[u8]) -> usize
    requires { text_room ≤ length out.old }
    ensures { Put out.old 0 (program_text input.now) out.new result × (result ≤ text_room) }
{
    let text = crate::program_text(own, input);
    put_text(out, 0, &text)
}

// The first bytes of out, as many as are answered, are what is printed.
pub fn program_text(out: &mut [u8], own: &mut Image, input: &[u8]) -> usize
    requires { text_room ≤ length out.old }
    ensures count { IsPrefixLen result out.new }
    ensures text { take result out.new ≡ program_text input.now }
{
    put_program(out, own, input)
}
