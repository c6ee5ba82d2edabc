// What the program `statement` prints for one input after the other: standard input builds each input by steps, one a line, and asks
// for its text. tools/examples.py makes the steps from the same inputs as those of the program, and what must be written from its own
// account of them. It rests on program::put_program, the whole of the program but for its reading and writing, and on script for lines.
// A line is written again with what was seen behind it; a step is known by its first letter, a small one for the first image and a
// capital for the second, or stands behind v1 or v2, an older version; its numbers may have words between them; what follows a # is a remark.
#![tactic(auto)]

use drafts::Step;
use program::TEXT_ROOM;
use text_words::Text;

// The room for two images and a byte.
const INPUT_ROOM: usize = 2 * format::IMAGE_SIZE + 1;

// The text of the first so many bytes.
fn text(input: &[u8], len: u64) {
    let mut own = [0u8; format::IMAGE_SIZE];
    let mut text = Text::<TEXT_ROOM>::new();
    program::put_program(&mut text, &mut own, script::between(input, 0, len as usize));
    let printed = text.as_bytes();
    script::tell(b" -> bytes ", printed.len());
    script::say(b"\n");
    script::say(printed);
}

// One step on the image of a place, or on the whole input.
fn play(input: &mut [u8], step: Step) {
    match step.letter {
        b't' => text(input, step.numbers[0]),
        _ => step.draft(input),
    }
}

fn main() {
    let mut lines = [0u8; 32768];
    let n = io::read_full(0, &mut lines);
    let mut input = [0u8; INPUT_ROOM];
    script::run(&lines[..n], |line| play(&mut input, Step::of(line)));
}
