// What the kinds of actions share: tests on a group and on shares, the payer's acknowledgement, a counter set, a version raised.
#![tactic(auto)]

ghost use Rattle.std.specs.Prelude.{◌≡◌, ◌≢◌, ◌≤◌, ◌<◌, set};
ghost use Rattle.format.specs.Layout.{last_version};
ghost use Rattle.rules.specs.Ledger.{member_in, nobody};
ghost use Rattle.rules.specs.Step.{payer_ack};
ghost use Rattle.rules.specs.Refusal.{outside, stranger_in};
ghost use Rattle.rules.specs.Tests.{eight_at};
ghost use Rattle.images.specs.Meaning.{bits};
ghost use Rattle.kinds.specs.Edit.{raised_record};

use format::{ExpenseRecord, GroupRecord};

// Nobody was ever a member: the group is absent.
pub fn nobody_in(f: [u16; 8]) -> bool
    ensures { result ≡ nobody (eight_at f) }
{
    f == [0; 8]
}

// A user is a member.
pub fn is_member(f: [u16; 8], u: u8) -> bool
    requires { u < 8 }
    ensures { result ≡ member_in (eight_at f) u }
{
    f[u as usize] % 2 == 1
}

// Someone has a positive share and is no member.
pub fn strangers(f: [u16; 8], s: [u32; 8]) -> bool
    ensures { result ≡ stranger_in (eight_at f) (eight_at s) }
{
    !sets::within(sets::positive(s), sets::members(f))
}

// The shares' total is outside its limits.
pub fn total_outside(s: [u32; 8]) -> bool
    ensures { result ≡ outside (eight_at s) }
{
    !(1..=format::MOST_TOTAL).contains(&eight::total_of(s))
}

// The acknowledgements of shares that the payer states: the payer's, where that share is positive.
pub fn payer_bit(payer: u8, s: [u32; 8]) -> u8
    requires { payer < 8 }
    ensures { result ≡ bits (payer_ack payer (eight_at s)) }
{
    if 0 < s[payer as usize] {
        sets::bit(payer)
    } else {
        0
    }
}

// A group with one user's counter set.
pub fn with_counter(g: GroupRecord, u: u8, n: u16) -> GroupRecord
    requires { u < 8 }
    ensures { (result.counters ≡ set g.counters u n) × (result.rule ≡ g.rule) }
{
    let mut counters = g.counters;
    counters[u as usize] = n;
    GroupRecord { counters, ..g }
}

// A group with its first member, under a rule.
pub fn with_founder(g: GroupRecord, u: u8, rule: u16) -> GroupRecord
    requires { u < 8 }
    ensures { (result.counters ≡ set g.counters u 1) × (result.rule ≡ rule) }
{
    GroupRecord {
        rule,
        ..with_counter(g, u, 1)
    }
}

// An expense with its version raised by one.
pub fn raised(e: ExpenseRecord) -> ExpenseRecord
    requires { e.version ≢ last_version }
    ensures { result ≡ raised_record e }
{
    ExpenseRecord {
        version: e.version + 1,
        ..e
    }
}
