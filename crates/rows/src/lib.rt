// Several expenses at one look: of all expenses' bytes, so many for each as their version has, and of an image. Where an expense stands is known here,
// where a field stands in it is not. The size is a number that a compiler knows, for it is the step from one expense to the next.
#![tactic(auto)]

ghost use Rattle.std.specs.Prelude.{◌≡◌, ◌+◌, ◌*◌, ◌≤◌, ◌<◌, ◌||◌, eqb, length};
ghost use Rattle.format.specs.Layout.{no_expense, expense_count};
ghost use Rattle.format.specs.Bytes.{expense_of, expense_part};
ghost use Rattle.rules.specs.Tests.{every8};
ghost use Rattle.fields.specs.Fields.{Sized, among, blank_head, blank_tail, absent_record, present_in};

use layout::Image;

// One expense among all, by its number.
pub fn part_at<const SIZE: usize>(all: &[u8], c: usize) -> &[u8]
    requires { (c < expense_count) × Sized SIZE × (length all.now ≡ expense_count * SIZE) }
    ensures part { result.now ≡ among SIZE all.now c }
    ensures sized { length result.now ≡ SIZE }
{
    let at = c * SIZE;
    let end = at + SIZE;
    &all[at..end]
}

// The eight heads from c on are blank.
pub fn heads_blank<const SIZE: usize>(all: &[u8], c: usize) -> bool
    requires { (c + 8 ≤ expense_count) × Sized SIZE × (length all.now ≡ expense_count * SIZE) }
    ensures { result ≡ every8 (λ i. blank_head (expense_of (among SIZE all.now (c + i)))) }
{
    let mut blank = true;
    for i in 0..8 {
        blank &= fields::head_blank(part_at::<SIZE>(all, c + i));
    }
    blank
}

// Nothing stands behind the eight heads from c on.
pub fn tails_blank<const SIZE: usize>(all: &[u8], c: usize) -> bool
    requires { (c + 8 ≤ expense_count) × Sized SIZE × (length all.now ≡ expense_count * SIZE) }
    ensures { result ≡ every8 (λ i. blank_tail (expense_of (among SIZE all.now (c + i)))) }
{
    let mut words = 0;
    for i in 0..8 {
        words |= fields::tail_words::<SIZE>(part_at::<SIZE>(all, c + i));
    }
    words == 0
}

// The eight expenses from c on are absent: all heads first, then all that stands behind them at once.
pub fn eight_absent<const SIZE: usize>(all: &[u8], c: usize) -> bool
    requires { (c + 8 ≤ expense_count) × Sized SIZE × (length all.now ≡ expense_count * SIZE) }
    ensures { result ≡ every8 (λ i. absent_record (expense_of (among SIZE all.now (c + i)))) }
{
    if !heads_blank::<SIZE>(all, c) {
        return false;
    }
    tails_blank::<SIZE>(all, c)
}

// One of the four expenses from c on is there and in group g.
pub fn four_in(image: &Image, c: usize, g: u8) -> bool
    requires { c + 4 ≤ expense_count }
    ensures { result ≡ (present_in (expense_of (expense_part image.now c)) g || present_in (expense_of (expense_part image.now (c + 1))) g || present_in (expense_of (expense_part image.now (c + 2))) g || present_in (expense_of (expense_part image.now (c + 3))) g) }
{
    let mut one = false;
    for i in 0..4 {
        one |= fields::is_in(layout::expense_part(image, c + i), g);
    }
    one
}

// One number of an image has no expense.
pub fn absent_at(image: &Image, c: usize) -> bool
    requires { c < expense_count }
    ensures { result ≡ eqb (expense_of (expense_part image.now c)).payer no_expense }
{
    fields::payer_in(layout::expense_part(image, c)) == format::NO_EXPENSE
}

// The eight numbers from c on have none. Where the first has one the others are not looked at.
pub fn none_of_eight(image: &Image, c: usize) -> bool
    requires { c + 8 ≤ expense_count }
    ensures { result ≡ every8 (λ i. eqb (expense_of (expense_part image.now (c + i))).payer no_expense) }
{
    if !absent_at(image, c) {
        return false;
    }
    let mut none = true;
    for i in 1..8 {
        none &= absent_at(image, c + i);
    }
    none
}
