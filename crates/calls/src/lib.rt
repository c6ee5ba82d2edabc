// Test scripts for whole calls: actions, merges, lookups and statements on two images, each in a buffer that is longer by a byte. A step is
// known by its first letter and has up to ten numbers. After each call that may write, the bytes that it changed are counted against a
// copy taken before it.
#![tactic(auto)]

use program::TEXT_ROOM;
use text_words::Text;

// The room for an image and a byte.
pub const ROOM: usize = format::IMAGE_SIZE + 1;

// Two images, and what one of them was before a call.
#[derive(Drop)]
pub struct Images {
    pub own: [u8; ROOM],
    pub other: [u8; ROOM],
    pub before: [u8; ROOM],
}

// The first ten numbers of a text, zeros behind the last.
pub fn numbers_of(text: &[u8]) -> [u32; 10] {
    let mut n = [0; 10];
    let mut at = 0;
    for k in 0..10 {
        let number = script::number_at(text, script::skip(text, at));
        n[k] = number.value;
        at = number.next;
    }
    n
}

// Those of a line up to its remark.
pub fn numbers_in(line: &[u8]) -> [u32; 10] {
    numbers_of(script::without_remark(line))
}

// An action record of these numbers: kind, actor, other, crew, cost, the shares of users 0 to 3, and what bytes 6 and 7 hold.
fn record_of(n: [u32; 10]) -> [u8; 40] {
    let mut x: [u8; 40] = [0; 40];
    x[0] = script::low(n[0]);
    x[1] = script::low(n[1]);
    x[2] = script::low(n[2]);
    x[3] = script::low(n[3]);
    numbers::put_u16(&mut x, 4, (n[4] % 65536) as u16);
    numbers::put_u16(&mut x, 6, (n[9] % 65536) as u16);
    numbers::put_u32(&mut x, 8, n[5]);
    numbers::put_u32(&mut x, 12, n[6]);
    numbers::put_u32(&mut x, 16, n[7]);
    numbers::put_u32(&mut x, 20, n[8]);
    x
}

// A founding with its rule.
fn founding(actor: u32, group: u32, rule: u32) -> [u8; 40] {
    record_of([1, actor, 0, group, 0, 0, 0, 0, 0, rule])
}

// How many bytes of a buffer differ from those of another, from a place on; behind the other's last there are zeros. A buffer has fewer bytes than
// would make the sum wrap, and without a test of it a compiler takes many bytes at a time.
pub fn differing(a: &[u8], b: &[u8], from: usize) -> usize {
    let mut count: usize = 0;
    for i in from..a.len() {
        count = count.wrapping_add(usize::from(a[i] != script::get(b, i)));
    }
    count
}

// The bytes of one buffer in another, zeros behind the last.
pub fn copy(from: &[u8], to: &mut [u8]) {
    let shared = from.len().min(to.len());
    to[..shared].copy_from_slice(&from[..shared]);
    to[shared..].fill(0);
}

// An empty image in the first so many bytes, every user at home on the van of his number.
pub fn empty_first(image: &mut [u8], len: usize, van: u32) {
    if let Some(first) = image.get_mut(..len) {
        script::answer(val::val_empty(first, van as u64, &[0, 1, 2, 3, 4, 5, 6, 7]));
    }
}

// An action on the first so many bytes.
fn act_first(image: &mut [u8], len: usize, action: &[u8; 40]) {
    if let Some(first) = image.get_mut(..len) {
        script::answer(val::val_act(first, action));
    }
}

// A merge of another image into the first so many bytes.
fn merge_first(own: &mut [u8], len: usize, other: &[u8]) {
    if let Some(first) = own.get_mut(..len) {
        script::answer(val::val_merge(first, other));
    }
}

// The statement of an image, as the program prints it.
fn print(image: &[u8]) {
    let mut text = Text::<TEXT_ROOM>::new();
    program::put_image(&mut text, script::between(image, 0, format::IMAGE_SIZE));
    script::say(b"\n");
    script::say(text.as_bytes());
}

// How long the part is that a lookup of a cost hands back, and the day in it.
fn lookup(image: &[u8], expense: u32) {
    let part = val::lookup(
        script::between(image, 0, format::IMAGE_SIZE),
        expense as u64,
    );
    let low = script::get(part, format::EXPENSE_SIZE_1);
    let high = script::get(part, format::EXPENSE_SIZE_1 + 1);
    script::tell(b" -> length ", part.len());
    script::tell(b", day ", low as usize + 256 * (high as usize));
}

// The rule of a crew, which stands behind its eight counters.
fn rule(image: &mut [u8], group: u32, rule: u32) {
    let g = (group % 16) as usize;
    let at = format::GROUPS_AT + format::GROUP_SIZE * g + 2 * format::USERS;
    script::put(image, at, script::low(rule));
    script::put(image, at + 1, script::low(rule / 256));
}

// One step on an image that makes or alters it by hand.
fn set_step(image: &mut [u8], op: u8, n: [u32; 10]) {
    match op {
        b'e' => empty_first(image, format::IMAGE_SIZE, n[0]),
        b's' => script::put(image, n[0] as usize, script::low(n[1])),
        b'r' => rule(image, n[0], n[1]),
        _ => {}
    }
}

// How many bytes of an image changed since it was kept.
fn tell_changed(own: &[u8], before: &[u8]) {
    script::tell(b", bytes changed ", differing(own, before, 0));
}

// An action on an image, kept as it was before it.
fn act(own: &mut [u8], before: &mut [u8], len: usize, action: [u8; 40]) {
    copy(own, before);
    act_first(own, len, &action);
    tell_changed(own, before);
}

// A merge of another image's first so many bytes into the first so many of one's own, kept as it was before it.
fn merge(own: &mut [u8], own_len: usize, other: &[u8], other_len: usize, before: &mut [u8]) {
    copy(own, before);
    merge_first(own, own_len, script::between(other, 0, other_len));
    tell_changed(own, before);
}

// Whether the groups and expenses of two images are the same.
fn compare(own: &[u8], other: &[u8]) {
    let differ = differing(own, other, format::GROUPS_AT);
    script::tell(b" -> bytes that differ behind the headers ", differ);
}

// One call that may write to the image.
fn call_step(own: &mut [u8], other: &[u8], before: &mut [u8], op: u8, n: [u32; 10]) {
    match op {
        b'a' => act(own, before, format::IMAGE_SIZE, record_of(n)),
        b'f' => act(own, before, format::IMAGE_SIZE, founding(n[0], n[1], n[2])),
        b'w' => act(own, before, n[0] as usize, founding(n[1], n[2], n[3])),
        b'm' => merge(own, format::IMAGE_SIZE, other, format::IMAGE_SIZE, before),
        b'o' => merge(own, format::IMAGE_SIZE, other, n[0] as usize, before),
        b'i' => merge(own, n[0] as usize, other, format::IMAGE_SIZE, before),
        _ => {}
    }
}

// One step on an image, with the other beside it. Which of the two it is shows in what is lent: an image is long, and isn't moved for a step.
fn image_step(own: &mut [u8], other: &mut [u8], before: &mut [u8], op: u8, n: [u32; 10]) {
    match op {
        b'c' => copy(own, other),
        b'e' | b's' | b'r' => set_step(own, op, n),
        b'd' => compare(own, other),
        b'l' => lookup(own, n[0]),
        b'p' => print(own),
        _ => call_step(own, other, before, op, n),
    }
}

impl Images {
    pub fn new() -> Self {
        Images {
            own: [0; ROOM],
            other: [0; ROOM],
            before: [0; ROOM],
        }
    }

    // Keeps the image as it is before a call.
    pub fn keep(&mut self) {
        copy(&self.own, &mut self.before);
    }

    // How many bytes of the image changed since it was kept.
    pub fn tell_changed(&self) {
        tell_changed(&self.own, &self.before);
    }

    // One line's step: a small letter for the first image, a capital for the second.
    pub fn step(&mut self, text: &[u8]) {
        let op = script::get(text, 0);
        let n = numbers_in(text);
        if op < b'a' {
            image_step(&mut self.other, &mut self.own, &mut self.before, op | 32, n);
        } else {
            image_step(&mut self.own, &mut self.other, &mut self.before, op, n);
        }
    }

    // All lines of a script, in order.
    pub fn run(&mut self, text: &[u8]) {
        script::run(text, |line| self.step(line));
    }
}
