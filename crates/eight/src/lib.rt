// Tests of several users at once, and sums over the eight.
#![tactic(auto)]

ghost use Rattle.std.specs.Prelude.{◌≡◌, ◌≤◌, eqb};
ghost use Rattle.rules.specs.Tests.{number, all_of, every8, sum8, eight_at};

// All of several tests hold. `&` looks at each, where `all` of an iterator has a way out after each: so a compiler makes few instructions of it.
pub fn all<const N: usize>(tests: [bool; N]) -> bool
    ensures { result ≡ all_of tests.entry }
{
    tests.iter().fold(true, |held, test| held & *test)
}

// The total of eight shares: eight times the largest u32 is its bound.
pub fn total_of(s: [u32; 8]) -> u64
    ensures { (result ≡ sum8 (eight_at s)) × (result ≤ 34_359_738_360) }
{
    let mut total = 0;
    for share in &s {
        total += u64::from(*share);
    }
    total
}

pub fn shares_zero(s: [u32; 8]) -> bool
    ensures { result ≡ every8 (λ u. eqb (eight_at s u) 0) }
{
    s == [0; 8]
}

// 1 for a test that holds, else 0.
pub fn one(a: bool) -> u8
    ensures { (result ≡ number a) × (result ≤ 1) }
{
    u8::from(a)
}
