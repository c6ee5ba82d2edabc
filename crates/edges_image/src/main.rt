// The edges of the image check, the empty image, lookup and the action reader, by running: standard input has the cases, one a line. A
// step is known by its first letter, and has up to two numbers.
#![tactic(auto)]

use reader::{Action, Deed};

// The room for an image and a byte.
const ROOM: usize = format::IMAGE_SIZE + 1;

// The check, a lookup and an action's kind, of the first bytes of a buffer.
fn check_first(image: &[u8], len: usize) {
    if let Some(first) = image.get(..len) {
        script::answer(val::val_check(first));
    }
}

fn lookup_first(image: &[u8], len: usize, number: u8) {
    lookup(script::between(image, 0, len), number as u32, 0);
}

fn kind_of(action: Action) -> u32 {
    match action.deed {
        Deed::Found { .. } => 1,
        Deed::Add { .. } => 2,
        Deed::Leave { .. } => 3,
        Deed::Enter { .. } => 4,
        Deed::PutIn { .. } => 5,
        Deed::TakeOut { .. } => 6,
        Deed::Change { .. } => 7,
        Deed::Delete { .. } => 8,
        Deed::Acknowledge { .. } => 9,
        Deed::Absorb { .. } => 10,
    }
}

fn kind_first(record: &[u8], len: usize) {
    if let Some(first) = record.get(..len) {
        let read = reader::read_action(first);
        script::tell(b" -> ", read.action.map_or(0, kind_of) as usize);
    }
}

// What is seen with one byte replaced.
fn with_byte<F: FnOnce(&[u8])>(bytes: &mut [u8], at: usize, value: u8, look: F)
    requires { F.IsAlwaysCallable look }
{
    let old = script::get(bytes, at);
    script::put(bytes, at, value);
    look(bytes);
    script::put(bytes, at, old);
}

// An empty image, every user but user 0 at home on the van of his number.
fn empty(image: &mut [u8], van: u32, home: u8) {
    let homes = [home, 1, 2, 3, 4, 5, 6, 7];
    script::answer(val::val_empty(image, van as u64, &homes));
}

// Lookup of n, or of 2^32 times m more: the length of the part, and its place and length as told to C.
fn lookup(image: &[u8], n: u32, m: u8) {
    let number = n as u64 + (m as u64) * 4294967296;
    script::tell(b" -> length ", val::lookup(image, number).len());
    let part = val::val_lookup(image, number);
    script::tell(b", at ", part.at);
    script::tell(b" length ", part.len);
}

// One step on an image.
fn image_step(image: &mut [u8], op: u8, a: u32, b: u8) {
    let at = a as usize;
    match op {
        b'i' => script::answer(val::val_check(image)),
        b's' => script::put(image, at, b),
        b'c' => with_byte(image, at, b, |image| check_first(image, format::IMAGE_SIZE)),
        b'e' => empty(image, a, b),
        b'l' => lookup(image, a, b),
        _ => {}
    }
}

// One step on a buffer one byte longer, or on an action record of 41 bytes.
fn step(image: &mut [u8; ROOM], record: &mut [u8; 41], op: u8, a: u32, b: u8) {
    let at = a as usize;
    match op {
        b'f' => check_first(image, at),
        b'b' => calls::empty_first(image, at, 0),
        b'p' => lookup_first(image, at, b),
        b'r' => script::put(record, at, b),
        b'k' => kind_first(record, at),
        b'w' => with_byte(
            record,
            at,
            b,
            |record| kind_first(record, format::ACTION_SIZE),
        ),
        b'E' => empty(image, a, b),
        _ => image_step(&mut image[..format::IMAGE_SIZE], op, a, b),
    }
}

// One line's step.
fn play(image: &mut [u8; ROOM], record: &mut [u8; 41], line: &[u8]) {
    let n = calls::numbers_of(line);
    step(image, record, script::get(line, 0), n[0], script::low(n[1]));
}

fn main() {
    let mut text = [0u8; 16384];
    let n = io::read_full(0, &mut text);
    let mut image = [9u8; ROOM];
    let mut record = [0u8; 41];
    script::run(&text[..n], |line| play(&mut image, &mut record, line));
}
