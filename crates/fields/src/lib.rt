// One record looked at where it stands: an expense's fields, and tests on them and on a group, eight bytes at a time where that is faster. Nothing
// is taken apart. What asks for forty bytes serves every version, whose expenses begin with the same forty.
// With codec, store and header the only code that knows where a field stands.
#![tactic(auto, unfolding(format::specs::Bytes::expense_of))]

ghost use Rattle.std.specs.Prelude.{◌≡◌, ℕ, ◌+◌, ◌*◌, ◌/◌, ◌%◌, ◌<◌, ◌≤◌, length, get_or, ◌==◌, nat_le};
ghost use Rattle.format.specs.Layout.{expense_size, most_total};
ghost use Rattle.format.specs.Bytes.{u32_at, shares_of, expense_of, group_of};
ghost use Rattle.rules.specs.Tests.{sum8, eight_at};
ghost use Rattle.rules.specs.Ledger.{nobody};
ghost use Rattle.rules.specs.Sound.{day_fits};
ghost use Rattle.images.specs.Meaning.{counters_of};
ghost use Rattle.fields.specs.Fields.{Part, blank_head, blank_tail, absent_record, present_in, stands_in, evens, odds};

// The fields, one by one.
pub fn payer_in(part: &[u8]) -> u8
    requires { 40 ≤ length part.now }
    ensures { result ≡ (expense_of part.now).payer }
{
    part[0]
}

pub fn version_in(part: &[u8]) -> u32
    requires { expense_size ≤ length part.now }
    ensures { result ≡ (expense_of part.now).version }
{
    numbers::read_u32(part, 4)
}

pub fn acknowledged_in(part: &[u8]) -> u8
    requires { expense_size ≤ length part.now }
    ensures { result ≡ (expense_of part.now).acknowledged }
{
    part[3]
}

pub fn group_in(part: &[u8]) -> u8
    requires { 40 ≤ length part.now }
    ensures { result ≡ (expense_of part.now).group }
{
    part[1]
}

pub fn deleted_in(part: &[u8]) -> u8
    requires { expense_size ≤ length part.now }
    ensures { result ≡ (expense_of part.now).deleted }
{
    part[2]
}

pub fn share_of(part: &[u8], u: u8) -> u32
    requires { (u < 8) × (expense_size ≤ length part.now) }
    ensures { result ≡ eight_at (expense_of part.now).shares u }
{
    numbers::read_u32(part, 8 + 4 * (u as usize))
}

pub fn day_in(part: &[u8]) -> u16
    requires { expense_size ≤ length part.now }
    ensures { result ≡ (expense_of part.now).day }
{
    numbers::read_u16(part, 40)
}

// Deleted and acknowledged as they stand, one byte behind the other.
pub fn marks_in(part: &[u8]) -> u16
    requires { 40 ≤ length part.now }
    ensures { result ≡ (expense_of part.now).deleted + 256 * (expense_of part.now).acknowledged }
{
    numbers::read_u16(part, 2)
}

// The first eight bytes are those of no expense.
pub fn head_blank(part: &[u8]) -> bool
    requires { 40 ≤ length part.now }
    ensures { result ≡ blank_head (expense_of part.now) }
{
    numbers::read_u64(part, 0) == 255
}

// The shares, two users to a word: the even one's in the low half.
fn share_pairs(part: &[u8]) -> [u64; 4]
    requires { 40 ≤ length part.now }
    ensures { (i : ℕ) → i < 4 → (get_or result i 0 % 4_294_967_296 ≡ u32_at part.now (8 + 8 * i)) × (get_or result i 0 / 4_294_967_296 ≡ u32_at part.now (8 + 8 * i + 4)) }
{
    std::array::from_fn(|i| numbers::read_u64(part, 8 + 8 * i))
}

// The bits of all shares, those of even users in the low half, those of odd ones in the high half.
pub fn share_words(part: &[u8]) -> u64
    requires { 40 ≤ length part.now }
    ensures { (result % 4_294_967_296 ≡ evens (shares_of part.now)) × (result / 4_294_967_296 ≡ odds (shares_of part.now)) }
{
    let [a, b, c, d] = share_pairs(part);
    (a | b) | (c | d)
}

// The bits of all that stands behind the head: the shares, and in the current version once more the last eight bytes, for the day. A word can be
// or'ed where it stands, a number of two bytes has to be read first.
pub fn tail_words<const SIZE: usize>(part: &[u8]) -> u64
    requires { Part SIZE part.now }
    ensures { (result == 0) ≡ blank_tail (expense_of part.now) }
{
    let shares = share_words(part);
    if SIZE == format::EXPENSE_SIZE {
        return shares | numbers::read_u64(part, 34);
    }
    shares
}

// No expense: a payer of 255 and nothing else.
pub fn is_absent<const SIZE: usize>(part: &[u8]) -> bool
    requires { Part SIZE part.now }
    ensures { result ≡ absent_record (expense_of part.now) }
{
    if !head_blank(part) {
        return false;
    }
    tail_words::<SIZE>(part) == 0
}

// A day of the calendar, or none: the numbers between the last day and 65,535 are neither, and one comparison tells them. The day is read as a number
// of 32 bits: made of `day_in` by `u32::from` it is compared in 16, with a step before, which is slower by 7 % of a check.
pub fn day_fits(part: &[u8]) -> bool
    requires { expense_size ≤ length part.now }
    ensures { result ≡ day_fits (expense_of part.now).day }
{
    let day = numbers::number32(part[40], part[41], 0, 0);
    29_010 <= day.wrapping_sub(36_525)
}

// The two shares of a word together.
pub fn halves(w: u64) -> u64
    ensures { (result ≡ w % 4_294_967_296 + w / 4_294_967_296) × (result ≤ 8_589_934_590) }
{
    w % 4_294_967_296 + w / 4_294_967_296
}

// The total of the shares, two at a time.
pub fn total_in(part: &[u8]) -> u64
    requires { 40 ≤ length part.now }
    ensures { (result ≡ sum8 (eight_at (shares_of part.now))) × (result ≤ 34_359_738_360) }
{
    let [a, b, c, d] = share_pairs(part);
    halves(a) + halves(b) + halves(c) + halves(d)
}

// The total is not above the most that an expense may have. Shares below 2 to the power 26 can't reach it, and are not added up.
pub fn total_fits(part: &[u8]) -> bool
    requires { 40 ≤ length part.now }
    ensures { result ≡ nat_le (sum8 (eight_at (shares_of part.now))) most_total }
{
    let w = share_words(part);
    if (w % 4_294_967_296 < 67_108_864) & (w / 4_294_967_296 < 67_108_864) {
        return true;
    }
    total_in(part) <= format::MOST_TOTAL
}

// The expense is there, in group g and not deleted.
pub fn stands_in(part: &[u8], g: u8) -> bool
    requires { expense_size ≤ length part.now }
    ensures { result ≡ stands_in (expense_of part.now) g }
{
    (part[1] == g) & (part[0] != format::NO_EXPENSE) & (part[2] != 1)
}

// The expense is there and in group g, deleted or not. The two bytes are one number, which lies within 255 of the group's first.
pub fn is_in(part: &[u8], g: u8) -> bool
    requires { expense_size ≤ length part.now }
    ensures { result ≡ present_in (expense_of part.now) g }
{
    let both = u32::from(numbers::read_u16(part, 0));
    let first = 256 * u32::from(g);
    both.wrapping_sub(first) < 255
}

// Nobody was ever a member of the group: its counters, which come first in every version, are two words of zeros.
pub fn nobody_ever(part: &[u8]) -> bool
    requires { 16 ≤ length part.now }
    ensures { result ≡ nobody (counters_of (group_of part.now)) }
{
    let a = numbers::read_u64(part, 0);
    let b = numbers::read_u64(part, 8);
    a | b == 0
}
