// The edges of a crew's figures, by running: statements, who pays whom, month statements, the calendar, and the balances of all crews
// together. Standard input drafts images by steps, one a line, and asks for figures; behind each # stands what the papers give.
#![tactic(auto)]

use drafts::Step;

mod days;
mod lent;
mod monthly;
mod statements;
mod together;
mod who_pays;

// What a line asks for: of how many of the drafted bytes, and the numbers that its kind of figures takes.
#[derive(Clone, Copy)]
struct Question {
    bytes: usize,
    a: u64,
    b: u64,
    c: u64,
}

// A capital letter is for the first so many bytes, which its first number tells; a small one for an image.
fn asked(letter: u8, n: [u64; 16]) -> Question {
    if letter < b'a' {
        return Question {
            bytes: n[0] as usize,
            a: n[1],
            b: n[2],
            c: n[3],
        };
    }
    Question {
        bytes: format::IMAGE_SIZE,
        a: n[0],
        b: n[1],
        c: n[2],
    }
}

// One line's step on the drafted bytes.
fn play(input: &mut [u8], line: &[u8]) {
    let letter = script::get(line, 0);
    let step = Step::of(line);
    let q = asked(letter, step.numbers);
    let bytes = script::between(input, 0, q.bytes);
    match letter | 32 {
        b'a' => together::balances(bytes, q.a),
        b's' => statements::statement(bytes, q.a, q.b),
        b'l' => who_pays::list(bytes, q.a, q.b),
        b'd' => days::days(q.a),
        b'r' => monthly::month(bytes, q.b, q.a, q.c),
        _ => step.draft(input),
    }
}

fn main() {
    let mut text = [0u8; 65536];
    let n = io::read_full(0, &mut text);
    let mut input = [0u8; format::IMAGE_SIZE + 1];
    script::run(&text[..n], |line| play(&mut input, line));
}
