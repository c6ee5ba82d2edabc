// What the program `statement` prints for its input, in `lent` into a lent buffer; and its reading and writing.
#![tactic(auto)]

ghost use Rattle.std.specs.Prelude.{◌≡◌, ◌+◌, ◌≤◌, ◌++◌, length};
ghost use Rattle.images.specs.Image.{image_check};
ghost use Rattle.text.specs.Text.{statement_text, image_text, joined_text, program_text};
ghost use Rattle.text_lines.specs.Room.{text_room};

pub mod lent;

use layout::Image;
use refusals::Fault;
use text_words::Text;

// Two images and a byte, and the longest text.
const INPUT_ROOM: usize = 43617;

pub const TEXT_ROOM: usize = 22633;

// The statement of a checked image.
pub fn put_statement<const N: usize>(text: &mut Text<N>, image: &Image)
    requires { (length text.old + text_room ≤ N) × (image_check image.now ≡ 0) }
    ensures text { text.new ≡ text.old ++ statement_text image.now }
    ensures room { length text.new ≤ length text.old + text_room }
{
    text_lines::put_van(text, header::replica_of(image));
    text_groups::put_groups(text, image);
}

// The same of any bytes, or a refusal.
pub fn put_image<const N: usize>(text: &mut Text<N>, image: &[u8])
    requires { length text.old + text_room ≤ N }
    ensures text { text.new ≡ text.old ++ image_text image.now }
    ensures room { length text.new ≤ length text.old + text_room }
{
    match image_check::check(image) {
        Ok(()) => put_statement(text, image.as_array().unwrap()),
        Err(fault) => text_lines::put_refused(text, fault.number()),
    }
}

// Own image with the other merged into it first.
pub fn put_joined<const N: usize>(text: &mut Text<N>, own: &mut [u8], other: &[u8])
    requires { length text.old + text_room ≤ N }
    ensures text { text.new ≡ text.old ++ joined_text own.old other.now }
    ensures room { length text.new ≤ length text.old + text_room }
{
    match merge::merge(own, other) {
        Ok(()) => put_statement(text, own.as_array().unwrap()),
        Err(refusal) => text_lines::put_refused(text, refusal.number()),
    }
}

// What is printed for an input; own is room for an image.
pub fn put_program<const N: usize>(text: &mut Text<N>, own: &mut Image, input: &[u8])
    requires { length text.old + text_room ≤ N }
    ensures text { text.new ≡ text.old ++ program_text input.now }
    ensures room { length text.new ≤ length text.old + text_room }
{
    if input.len() == format::IMAGE_SIZE {
        return put_image(text, input);
    }
    if input.len() == format::IMAGE_SIZE + format::IMAGE_SIZE {
        own.copy_from_slice(&input[..format::IMAGE_SIZE]);
        return put_joined(text, own, &input[format::IMAGE_SIZE..]);
    }
    text_lines::put_refused(text, Fault::Length.number())
}

// The same as a text of its own.
pub fn program_text(own: &mut Image, input: &[u8]) -> Text<TEXT_ROOM>
    ensures text { result ≡ program_text input.now }
    ensures room { length result ≤ text_room }
{
    let mut text = Text::new();
    put_program(&mut text, own, input);
    text
}

// Reads the input, of which two images and a byte tell all, and writes its text.
pub fn run() {
    let mut input = [0u8; INPUT_ROOM];
    let mut own = [0u8; format::IMAGE_SIZE];
    let n = io::read_full(0, &mut input);
    let text = program_text(&mut own, &input[..n]);
    io::write_all(1, text.as_bytes());
}
