// The gifts of those who left, from a group's counters and what each user paid and holds; and how they are divided among the members, equally
// (rule 1) or by use (rule 2, crate usage).
#![tactic(auto)]

ghost use Rattle.std.specs.Prelude.{◌≡◌, ℕ, ◌/◌, ◌%◌, ◌≤◌, ◌<◌, eqb};
ghost use Rattle.rules.specs.Tests.{number, eight_at, eight_of};
ghost use Rattle.rules.specs.Ledger.{member_in};
ghost use Rattle.rules.specs.Parts.{members_in};
ghost use Rattle.parts.specs.Parts.{gift_from, gift_at, gifts_from, ranks_from, equal_part, equal_at, equal_eight, equal_from, parts_from};

// What each member gets of gifts divided equally, and the cents that are left over.
#[derive(Clone, Copy)]
pub struct Split {
    pub each: u64,
    pub rest: u64,
}

// The gift of one user, of user u, and of all.
pub fn gift_of(counter: u16, paid: u64, held: u64) -> u64
    ensures { result ≡ gift_from counter paid held }
{
    if counter % 2 == 1 {
        return 0;
    }
    paid.saturating_sub(held)
}

fn gift_at(f: [u16; 8], paid: [u64; 8], held: [u64; 8], u: usize) -> u64
    requires { u < 8 }
    ensures { result ≡ gift_at f paid held u }
{
    gift_of(f[u], paid[u], held[u])
}

pub fn gifts_of(f: [u16; 8], paid: [u64; 8], held: [u64; 8]) -> [u64; 8]
    ensures { result ≡ gifts_from f paid held }
{
    std::array::from_fn(|u| gift_at(f, paid, held, u))
}

// 1 for a member, else 0; that of all.
pub fn one_member(counter: u16) -> u8
    ensures { (result ≡ number (eqb (counter % 2) 1)) × (result ≤ 1) }
{
    eight::one(counter % 2 == 1)
}

fn ones_of(f: [u16; 8]) -> [u8; 8]
    ensures { result ≡ eight_of (λ u. number (member_in (eight_at f) u)) }
{
    f.map(one_member)
}

// How many members have a smaller user number, user by user; and how many there are.
pub fn ranks_of(f: [u16; 8]) -> [u8; 8]
    ensures { result ≡ ranks_from f }
{
    // Running sums, written out: a loop that reads back what it wrote is no plainer, as its invariant shows.
    let r1 = one_member(f[0]);
    let r2 = r1 + one_member(f[1]);
    let r3 = r2 + one_member(f[2]);
    let r4 = r3 + one_member(f[3]);
    let r5 = r4 + one_member(f[4]);
    let r6 = r5 + one_member(f[5]);
    let r7 = r6 + one_member(f[6]);
    [0, r1, r2, r3, r4, r5, r6, r7]
}

pub fn members_in(f: [u16; 8]) -> u32
    ensures { result ≡ members_in (member_in (eight_at f)) }
{
    let members: u8 = ones_of(f).iter().sum();
    members as u32
}

// The gifts divided among the members; without a member all is left over.
pub fn split_of(gifts: u64, members: u32) -> Split
    ensures { result ≡ record { each = gifts / members; rest = gifts % members } }
{
    if members == 0 {
        return Split {
            each: 0,
            rest: gifts,
        };
    }
    let m = members as u64;
    Split {
        each: gifts / m,
        rest: gifts % m,
    }
}

// The equal part of one user, of user u, and of all: one cent more for the first members.
pub fn equal_part(counter: u16, rank: u8, each: u64, rest: u64) -> u64
    requires { each ≤ 140_737_488_322_560 }
    ensures { result ≡ equal_part counter rank each rest }
{
    if counter % 2 != 1 {
        return 0;
    }
    if (rank as u64) < rest {
        return each + 1;
    }
    each
}

fn equal_at(f: [u16; 8], ranks: [u8; 8], each: u64, rest: u64, u: usize) -> u64
    requires { (u < 8) × (each ≤ 140_737_488_322_560) }
    ensures { result ≡ equal_at f ranks each rest u }
{
    equal_part(f[u], ranks[u], each, rest)
}

pub fn equal_eight(f: [u16; 8], ranks: [u8; 8], each: u64, rest: u64) -> [u64; 8]
    requires { each ≤ 140_737_488_322_560 }
    ensures { result ≡ equal_eight f ranks each rest }
{
    std::array::from_fn(|u| equal_at(f, ranks, each, rest, u))
}

// The equal parts of a group's gifts.
pub fn equal_parts(f: [u16; 8], gifts: u64) -> [u64; 8]
    requires { gifts ≤ 140_737_488_322_560 }
    ensures { result ≡ equal_from f gifts }
{
    let members = members_in(f);
    let split = split_of(gifts, members);
    let ranks = ranks_of(f);
    equal_eight(f, ranks, split.each, split.rest)
}

// The parts of a group's gifts under its rule, from the weights w: by use where the rule says so and a member has weight, else equally.
pub fn parts_of(rule: u16, f: [u16; 8], gifts: u64, w: [u64; 8]) -> [u64; 8]
    requires { (gifts ≤ 140_737_488_322_560) × ((u : ℕ) → eight_at w u ≤ 512) }
    ensures { result ≡ parts_from rule f gifts w }
{
    if rule != format::USE_RULE {
        return equal_parts(f, gifts);
    }
    let total = usage::sum_over(f, w);
    if total == 0 {
        return equal_parts(f, gifts);
    }
    usage::by_use(f, gifts, w, total)
}
