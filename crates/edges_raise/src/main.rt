// The edges of raising, by running: an image of version 1 or 2 is drafted in a buffer of its own by lines that begin with v1 or v2, and
// what it must become by lines that begin with v3; it is raised, the two are compared, and calls go on with what was raised.
// Standard input has the steps, one a line, and behind each # what the paper gives. A line is written again with what was seen behind
// it. Steps that are none of these are those of `calls`: a small letter for what was raised, a capital for what it must be.
#![tactic(auto)]

use calls::{Images, ROOM};
use drafts::Step;

// The first so many bytes raised into the first so many of the image, and how many bytes of it changed.
fn raise_first(old: &[u8], image: &mut [u8], len: usize) {
    if let Some(first) = image.get_mut(..len) {
        script::answer(val::val_raise(old, first));
    }
}

fn raise(old: &[u8], images: &mut Images, n: [u32; 10]) {
    images.keep();
    let first = script::between(old, 0, n[0] as usize);
    raise_first(first, &mut images.own, n[1] as usize);
    images.tell_changed();
}

// How many bytes of the image differ from what it must be, header and all.
fn unlike(images: &Images) {
    let image = &images.own[..format::IMAGE_SIZE];
    script::tell(
        b" -> bytes that differ ",
        calls::differing(image, &images.other, 0),
    );
}

// What the calls that change nothing say of an image.
fn look(old: &[u8]) {
    script::tell(b" -> check ", script::number_of(val::val_check(old)));
    script::tell(
        b", statement ",
        script::number_of(figures::report_of(old, 0, 8).map(|_| ())),
    );
    script::tell(b", lookup of length ", val::lookup(old, 0).len());
}

fn look_payments(old: &[u8]) {
    let mut cents = [0u64; 64];
    let answer = script::number_of(val::val_payments(old, 0, &mut cents));
    script::tell(b", payments ", answer);
}

fn look_month(old: &[u8]) {
    let mut raws = [0i64; 8];
    let answer = script::number_of(val::val_month(old, 0, 0, &mut raws));
    script::tell(b", month ", answer);
}

// What the calls say that would write into it.
fn change_alone(old: &mut [u8]) {
    let homes = [0, 1, 2, 3, 4, 5, 6, 7];
    let mut founding = [0u8; 40];
    founding[0] = 1;
    founding[3] = 1;
    founding[6] = 1;
    script::tell(
        b", empty ",
        script::number_of(val::val_empty(old, 0, &homes)),
    );
    script::tell(b", act ", script::number_of(val::val_act(old, &founding)));
}

// The same, and joins of an image that is sound into it, and of it into that one.
fn change(old: &mut [u8], own: &mut [u8]) {
    change_alone(old);
    script::tell(
        b", join into it ",
        script::number_of(val::val_merge(old, own)),
    );
    script::tell(
        b", join of it ",
        script::number_of(val::val_merge(own, old)),
    );
}

// Every call on the first so many bytes, and how many of the buffer's bytes changed.
fn try_all(old: &mut [u8; ROOM], images: &mut Images, len: usize) {
    let before = *old;
    let image = script::between(old, 0, len);
    look(image);
    look_payments(image);
    look_month(image);
    if let Some(first) = old.get_mut(..len) {
        change(first, &mut images.own[..format::IMAGE_SIZE]);
    }
    script::tell(b", bytes changed ", calls::differing(old, &before, 0));
}

// A step on the image that is to be raised, or on what it must become, by the version that is drafted.
fn draft(old: &mut [u8], other: &mut [u8], step: Step) {
    let place = step.place;
    if place.version == format::VERSION {
        step.draft(other);
    } else {
        step.draft(old);
    }
}

// One line's step.
fn play(old: &mut [u8; ROOM], images: &mut Images, line: &[u8]) {
    let n = calls::numbers_in(line);
    match script::get(line, 0) {
        b'v' => draft(old, &mut images.other, Step::of(line)),
        b'b' => images.own.fill(script::low(n[0])),
        b'r' => raise(old, images, n),
        b'u' => unlike(images),
        b't' => try_all(old, images, n[0] as usize),
        _ => images.step(line),
    }
}

fn main() {
    let mut text = [0u8; 32768];
    let n = io::read_full(0, &mut text);
    let mut old = [0u8; ROOM];
    let mut images = Images::new();
    script::run(&text[..n], |line| play(&mut old, &mut images, line));
}
