// A month statement, asked for and shown.
use crate::lent;
use crate::lent::UNWRITTEN;
use text_words::Text;

// A raw with its sign; all that are written, user by user; and how many these are.
pub fn raw(cents: i64) {
    let mut text = Text::<21>::new();
    text.signed(cents);
    script::say(b" ");
    script::say(text.as_bytes());
}

fn written(raws: &[i64]) {
    for cents in raws.iter().filter(|cents| **cents != UNWRITTEN) {
        raw(*cents);
    }
}

fn seen(raws: &[i64]) {
    let count = lent::altered(raws, UNWRITTEN);
    script::tell(b", numbers altered ", count);
    if 0 < count {
        script::say(b":");
        written(raws);
    }
}

// A month of a crew in so many numbers, from these bytes: the answer, how many of the lent numbers were altered, and what stands in them.
pub fn month(image: &[u8], group: u64, month: u64, lent: u64) {
    let mut raws = [UNWRITTEN; 129];
    if let Some(first) = raws.get_mut(..lent as usize) {
        script::answer(val::val_month(image, group, month, first));
    }
    seen(&raws);
}
