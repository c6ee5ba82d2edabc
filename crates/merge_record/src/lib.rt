// One record of one's own merged with the other image's: a group, by value, and an expense's part, in place.
#![tactic(auto)]

ghost use Rattle.std.specs.Prelude.{◌≡◌, max, length};
ghost use Rattle.format.specs.Layout.{expense_size};
ghost use Rattle.format.specs.Bytes.{expense_of, bytes_of};
ghost use Rattle.rules.specs.Ledger.{either_rule};
ghost use Rattle.merge_record.specs.Merged.{larger_group, merged_record};

use format::GroupRecord;
use layout::ExpensePart;
use std::cmp::Ordering;

// The rule of a group from two places: its own, or the other's where it has none.
pub fn either_rule(own: u16, other: u16) -> u16
    ensures { result ≡ either_rule own other }
{
    if own == 0 { other } else { own }
}

// The larger counter of each user, and the rule.
pub fn larger_group(a: GroupRecord, b: GroupRecord) -> GroupRecord
    ensures { result ≡ larger_group a b }
{
    let x = a.counters;
    let y = b.counters;
    GroupRecord {
        counters: std::array::from_fn(|u| x[u].max(y[u])),
        rule: either_rule(a.rule, b.rule),
    }
}

// One expense: the higher version stays or is taken over whole, equal versions unite their acknowledgements. Nothing else is written.
// One's own part stays a slice: of a part that `as_mut_array` lent, a proof knows no more than its length once it is handed back.
pub fn merge_part(mine: &mut [u8], theirs: &ExpensePart)
    requires { length mine.old ≡ expense_size }
    ensures { mine.new ≡ bytes_of (merged_record (expense_of mine.old) (expense_of theirs.now)) }
{
    if fields::payer_in(theirs) == format::NO_EXPENSE {
        return;
    }
    if fields::payer_in(mine) == format::NO_EXPENSE {
        store::put_record(mine, codec::read_expense(theirs));
        return;
    }
    match fields::version_in(mine).cmp(&fields::version_in(theirs)) {
        Ordering::Less => store::put_record(mine, codec::read_expense(theirs)),
        Ordering::Equal => {
            let kept = fields::acknowledged_in(mine);
            let more = fields::acknowledged_in(theirs);
            store::put_acknowledged(mine, sets::union(kept, more));
        }
        Ordering::Greater => {}
    }
}
