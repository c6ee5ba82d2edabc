// Who pays whom, asked for and shown.
use crate::lent;

// What the lent numbers hold before a call.
const UNWRITTEN: u64 = lent::UNWRITTEN as u64;

// One payment, by its place among the numbers; and all that are written, payer by receiver.
fn payment(at: usize, paid: u64) {
    script::tell(b"\nuser ", at / 8);
    script::tell(b" pays user ", at % 8);
    script::tell(b" ", paid as usize);
}

fn payments(cents: &[u64]) {
    for (at, paid) in cents.iter().enumerate() {
        if 0 < *paid && *paid < UNWRITTEN {
            payment(at, *paid);
        }
    }
}

// The list of a crew in so many numbers, from these bytes: the answer, how many of the lent numbers were altered, and each payment.
pub fn list(image: &[u8], group: u64, lent: u64) {
    let mut cents = [UNWRITTEN; 72];
    if let Some(first) = cents.get_mut(..lent as usize) {
        script::answer(val::val_payments(image, group, first));
    }
    script::tell(b", numbers altered ", lent::altered(&cents, UNWRITTEN));
    payments(&cents);
}
