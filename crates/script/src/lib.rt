// What reads any test script: a text whose lines are small steps on lent buffers, each known by its first letter, with numbers behind it;
// what follows a # is a remark. A line is written again with what was seen behind it, so that the output reads by itself.
#![tactic(auto)]

ghost use Rattle.std.specs.Prelude.{◌≤◌};

use refusals::Refusal;

// Standard output.
const STDOUT_FILENO: i32 = 1;

// A number that a text has, and the place behind it.
#[derive(Clone, Copy)]
pub struct Number {
    pub value: u32,
    pub next: usize,
}

// Printing goes through io, not println!, which needs the runtime as an argument of every function down to the step that prints.
pub fn say(text: &[u8]) {
    io::write_all(STDOUT_FILENO, text);
}

// What a call answers, by its number: 0 where nothing is refused.
pub fn number_of<E: Into<Refusal>>(done: Result<(), E>) -> usize {
    refusals::answer(done.map_err(|e| e.into())) as usize
}

pub fn answer<E: Into<Refusal>>(done: Result<(), E>) {
    tell(b" -> ", number_of(done));
}

pub fn tell(text: &[u8], number: usize) {
    say(text);
    io::print_decimal(STDOUT_FILENO, number as u64);
}

// The byte at a place, 0 beyond the end; and a byte stored there, if there is such a place.
pub fn get(bytes: &[u8], at: usize) -> u8 {
    bytes.get(at).copied().unwrap_or(0)
}

pub fn put(bytes: &mut [u8], at: usize, value: u8) {
    if let Some(byte) = bytes.get_mut(at) {
        *byte = value;
    }
}

pub fn low(x: u32) -> u8 {
    (x % 256) as u8
}

// The part from a to e, empty where there is none.
pub fn between(text: &[u8], a: usize, e: usize) -> &[u8] {
    text.get(a..e).unwrap_or(&[])
}

// A number with a digit more behind it, as long as it fits 32 bits.
fn shifted(value: u32, digit: u8) -> u32 {
    if value < 400_000_000 {
        10 * value + (digit % 10) as u32
    } else {
        value
    }
}

// The next place with a digit, or the end.
pub fn skip(text: &[u8], from: usize) -> usize {
    for i in from..text.len() {
        if text[i].is_ascii_digit() {
            return i;
        }
    }
    from.max(text.len())
}

// The number at a place, and the place behind it.
pub fn number_at(text: &[u8], from: usize) -> Number {
    let mut value = 0;
    for i in from..text.len() {
        let byte = text[i];
        if !byte.is_ascii_digit() {
            return Number { value, next: i };
        }
        value = shifted(value, byte % 48);
    }
    Number {
        value,
        next: from.max(text.len()),
    }
}

// The next place with this byte, or the end: where a line's remark begins.
pub fn found(text: &[u8], from: usize, what: u8) -> usize
    ensures { from ≤ result }
{
    for at in from..text.len() {
        if text[at] == what {
            return at;
        }
    }
    from.max(text.len())
}

// A line up to its remark.
pub fn without_remark(line: &[u8]) -> &[u8] {
    between(line, 0, found(line, 0, b'#'))
}

// Each digit of the numbers of a text, whatever stands between them: which number it is of, counted from 0, and the digit.
pub fn each_digit<F: FnMut(usize, u8)>(text: &[u8], mut take: F)
    requires { F.IsAlwaysCallable take }
{
    let mut number: usize = 0;
    let mut within = false;
    for byte in text {
        if byte.is_ascii_digit() {
            take(number, byte % 48);
        } else if within {
            number = number.saturating_add(1);
        }
        within = byte.is_ascii_digit();
    }
}

// Each line of a text, in order: written again, and then played, which writes what was seen behind it.
pub fn run<F: FnMut(&[u8])>(text: &[u8], mut play: F)
    requires { F.IsAlwaysCallable play }
{
    for ended in text.split_inclusive(|b| *b == b'\n') {
        let line = ended.strip_suffix(b"\n").unwrap_or(ended);
        say(line);
        play(line);
        say(b"\n");
    }
}
