// Numbers lent to a call, of any type. Before the call all hold a mark that is more than any number that it writes, so that each number
// written is seen.

// The mark.
pub const UNWRITTEN: i64 = 999999999999;

// How many numbers a call altered.
pub fn altered<T: PartialEq + Copy>(numbers: &[T], mark: T) -> usize {
    numbers.iter().filter(|n| **n != mark).count()
}
