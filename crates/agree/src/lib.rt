// Whether two images may be merged: a group present in both has one rule, and equal versions of an expense differ in no more than
// acknowledgements.
#![tactic(auto)]

ghost use Rattle.std.specs.Prelude.{◌≡◌, ◌&&◌, ◌≤◌, eqb, length};
ghost use Rattle.std.specs.Bool.{beq};
ghost use Rattle.format.specs.Layout.{group_count, expense_size, expense_count};
ghost use Rattle.format.specs.Bytes.{expense_of};
ghost use Rattle.rules.specs.Tests.{every8, every_below, eight_at};
ghost use Rattle.rules.specs.Merge.{rules_agree, alike, agree};
ghost use Rattle.images.specs.Meaning.{present, meaning};
ghost use Rattle.agree.specs.Agreed.{rules_agree_at, agree_at};

use layout::Image;

// Two expenses have the same shares.
pub fn shares_same(s: [u32; 8], t: [u32; 8]) -> bool
    ensures { result ≡ every8 (λ u. eqb (eight_at s u) (eight_at t u)) }
{
    s == t
}

// Both are deleted, or neither is.
pub fn deletions_same(a: u8, b: u8) -> bool
    ensures { result ≡ beq (eqb a 1) (eqb b 1) }
{
    (a == 1) == (b == 1)
}

// Two present expenses differ in no more than versions and acknowledgements.
pub fn parts_alike(mine: &[u8], theirs: &[u8]) -> bool
    requires { (expense_size ≤ length mine.now) × (expense_size ≤ length theirs.now) }
    ensures { result ≡ alike (present (expense_of mine.now)) (present (expense_of theirs.now)) }
{
    if fields::payer_in(mine) != fields::payer_in(theirs) {
        return false;
    }
    if fields::group_in(mine) != fields::group_in(theirs) {
        return false;
    }
    if !deletions_same(fields::deleted_in(mine), fields::deleted_in(theirs)) {
        return false;
    }
    if fields::day_in(mine) != fields::day_in(theirs) {
        return false;
    }
    shares_same(codec::read_shares(mine), codec::read_shares(theirs))
}

// An expense's part on both sides: equal versions differ in no more than acknowledgements. An absent one is not taken apart.
pub fn parts_agree(mine: &[u8], theirs: &[u8]) -> bool
    requires { (expense_size ≤ length mine.now) × (expense_size ≤ length theirs.now) }
    ensures { result ≡ agree (meaning (expense_of mine.now)) (meaning (expense_of theirs.now)) }
{
    if fields::payer_in(mine) == format::NO_EXPENSE {
        return true;
    }
    if fields::payer_in(theirs) == format::NO_EXPENSE {
        return true;
    }
    if fields::version_in(mine) != fields::version_in(theirs) {
        return true;
    }
    parts_alike(mine, theirs)
}

// No expense stands in the way of a merge.
pub fn expenses_agree(own: &Image, other: &Image) -> bool
    ensures { result ≡ every_below expense_count (agree_at own.now other.now) }
{
    for c in 0..format::EXPENSE_COUNT {
        if !parts_agree(layout::expense_part(own, c), layout::expense_part(other, c)) {
            return false;
        }
    }
    true
}

// The rules of a group in two places: one rule, or no group in one of them.
pub fn rule_agrees(mine: u16, theirs: u16) -> bool
    ensures { result ≡ rules_agree mine theirs }
{
    (mine == 0) | ((theirs == 0) | (mine == theirs))
}

// No group's rule stands in the way of a merge.
pub fn rules_agree(own: &Image, other: &Image) -> bool
    ensures { result ≡ every_below group_count (rules_agree_at own.now other.now) }
{
    for g in 0..format::GROUP_COUNT {
        if !rule_agrees(codec::rule_at(own, g), codec::rule_at(other, g)) {
            return false;
        }
    }
    true
}

// Nothing stands in the way of a merge.
pub fn images_agree(own: &Image, other: &Image) -> bool
    ensures { result ≡ (every_below group_count (rules_agree_at own.now other.now) && every_below expense_count (agree_at own.now other.now)) }
{
    rules_agree(own, other) && expenses_agree(own, other)
}
