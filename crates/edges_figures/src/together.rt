// The balances of all crews together, asked for, shown and laid beside each crew's own statement. That is asked for by value, which is all
// of its entry point but for copying the lines into lent ones.
use crate::lent::UNWRITTEN;
use crate::{lent, monthly};
use refusals::Refusal;

// Whether all eight numbers of a crew are 0.
fn zeros(row: &[i64]) -> bool {
    row.iter().all(|cents| *cents == 0)
}

// A crew's eight numbers, user by user.
fn print_row(group: usize, row: &[i64]) {
    script::tell(b"\ncrew ", group);
    script::say(b":");
    for cents in row {
        monthly::raw(*cents);
    }
}

// The crews that have a number other than 0, each with all eight; then the crews that have none.
fn rows(balances: &[i64]) {
    for (group, row) in balances.chunks_exact(8).enumerate() {
        if !zeros(row) {
            print_row(group, row);
        }
    }
}

fn rest(balances: &[i64]) {
    script::say(b"\nzeros:");
    for (group, row) in balances.chunks_exact(8).enumerate() {
        if zeros(row) {
            script::tell(b" ", group);
        }
    }
}

// What a crew's own statement has for its users: their balances, zeros where there is no such crew, and with any other refusal no figure at
// all.
fn own(image: &[u8], group: usize) -> Option<[i64; 8]> {
    match figures::report_of(image, group as u64, 8) {
        Ok(report) => Some(report.lines.map(|line| line.balance)),
        Err(Refusal::GroupAbsent) => Some([0; 8]),
        Err(_) => None,
    }
}

// The first user of a crew whose number is not the one of its own statement.
fn unlike_own(own: Option<[i64; 8]>, row: &[i64]) -> Option<usize> {
    match own {
        Some(balances) => row.iter().zip(&balances).position(|(a, b)| a != b),
        None => Some(0),
    }
}

// The first crew and user of whom that holds.
fn unlike(image: &[u8], balances: &[i64]) -> Option<(usize, usize)> {
    for (group, row) in balances.chunks_exact(8).enumerate() {
        if let Some(user) = unlike_own(own(image, group), row) {
            return Some((group, user));
        }
    }
    None
}

// Whether all numbers are those of the crews' own statements, or the first that is not.
fn compare(image: &[u8], balances: &[i64]) {
    let present = (0..16)
        .filter(|group| figures::report_of(image, *group, 8).is_ok())
        .count();
    script::tell(b", crews present ", present);
    match unlike(image, balances) {
        None => script::say(b", all 128 as in the crews' own statements"),
        Some((group, user)) => {
            script::tell(b", UNLIKE its statement: crew ", group);
            script::tell(b" user ", user);
        }
    }
}

fn seen(image: &[u8], balances: &[i64]) {
    let count = lent::altered(balances, UNWRITTEN);
    script::tell(b", numbers altered ", count);
    if 0 < count {
        compare(image, balances);
        rows(balances);
        rest(balances);
    }
}

// All crews in so many numbers, from these bytes: the answer, how many of the lent numbers were altered, what the statements say of them,
// and all of them, crew by crew.
pub fn balances(image: &[u8], lent: u64) {
    let mut balances = [UNWRITTEN; 129];
    if let Some(first) = balances.get_mut(..lent as usize) {
        script::answer(val::val_balances(image, first));
    }
    seen(image, &balances);
}
