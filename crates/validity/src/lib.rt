// The tests of one expense that the sums over a group's expenses ask: whether all its shares count as acknowledged by the group's rule, and
// whether its day is one of those asked for.
#![tactic(auto)]

ghost use Rattle.std.specs.Prelude.{◌≡◌, ◌≤◌, ◌||◌, leb, eqb, length};
ghost use Rattle.format.specs.Layout.{expense_size};
ghost use Rattle.format.specs.Bytes.{expense_of};
ghost use Rattle.calendar.specs.Calendar.{between};
ghost use Rattle.rules.specs.Tests.{every8, eight_at};
ghost use Rattle.rules.specs.Balance.{counts_acknowledged};
ghost use Rattle.images.specs.Meaning.{read_bits};
ghost use Rattle.validity.specs.Validity.{small_in};

use calendar::Span;

// The largest share that needs no acknowledgement in a group of this rule.
#[tactic(auto, unfolding(crate::specs::Validity::small_in))]
pub fn small_share(rule: u16) -> u32
    ensures { result ≡ small_in rule }
{
    if rule == format::USE_RULE {
        format::SMALL_SHARE
    } else {
        0
    }
}

// Every share above a limit is acknowledged.
pub fn acknowledged_above(s: [u32; 8], limit: u32, acknowledged: u8) -> bool
    ensures { result ≡ every8 (λ u. leb (eight_at s u) limit || read_bits acknowledged u) }
{
    let asked = sets::high_above(s, limit);
    let all = 256 * (acknowledged as u32);
    (asked | all) == all
}

// Every positive share counts as acknowledged in a group of this rule. The limit is a constant in each branch, and not the result of `small_share`:
// only then does a compiler take eight shares together beside the sums.
pub fn all_acknowledged(rule: u16, s: [u32; 8], acknowledged: u8) -> bool
    ensures { result ≡ every8 (λ u. eqb (eight_at s u) 0 || counts_acknowledged rule (eight_at s u) (read_bits acknowledged u)) }
{
    if rule == format::USE_RULE {
        acknowledged_above(s, format::SMALL_SHARE, acknowledged)
    } else {
        acknowledged_above(s, 0, acknowledged)
    }
}

// The expense's day is one of these days, the first and the last included.
pub fn is_dated(part: &[u8], days: Span) -> bool
    requires { expense_size ≤ length part.now }
    ensures { result ≡ between days.first days.last (expense_of part.now).day }
{
    let day = fields::day_in(part);
    (days.first <= day) & (day <= days.last)
}
