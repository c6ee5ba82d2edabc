// Eight amounts in halves: what is added up of shares of 32 bits, the low and the high sixteen bits of each apart, in numbers of 32 bits, so that a
// processor adds four at a time; and the amounts made whole again.
#![tactic(auto)]

ghost use Rattle.std.specs.Prelude.{◌≡◌, ℕ, ◌+◌, ◌*◌, ◌/◌, ◌%◌, ◌≤◌};
ghost use Rattle.rules.specs.Tests.{eight_at, eight_of};
ghost use Rattle.amounts.specs.Amounts.{UpTo};
ghost use Rattle.halves.specs.Halves.{whole_of};

// The low halves of an expense's shares are added, and the high ones.
pub fn add_low(low: &mut [u32; 8], s: [u32; 8])
    requires { UpTo 33_554_432 low.old }
    ensures { low.new ≡ eight_of (λ u. eight_at low.old u + eight_at s u % 65_536) }
{
    for u in 0..format::USERS {
        low[u] += s[u] % 65_536;
    }
}

pub fn add_high(high: &mut [u32; 8], s: [u32; 8])
    requires { UpTo 33_554_432 high.old }
    ensures { high.new ≡ eight_of (λ u. eight_at high.old u + eight_at s u / 65_536) }
{
    for u in 0..format::USERS {
        high[u] += s[u] / 65_536;
    }
}

// Eight amounts out of their halves.
pub fn whole_of(low: [u32; 8], high: [u32; 8]) -> [u64; 8]
    ensures { result ≡ eight_of (whole_of low high) }
{
    std::array::from_fn(|u| low[u] as u64 + 65_536 * (high[u] as u64))
}

// Eight amounts more.
pub fn add_amounts(sums: &mut [u64; 8], s: [u64; 8])
    requires { UpTo 17_592_186_040_320 sums.old × ((u : ℕ) → eight_at s u ≤ 2_199_023_255_040) }
    ensures { sums.new ≡ eight_of (λ u. eight_at sums.old u + eight_at s u) }
{
    for u in 0..format::USERS {
        sums[u] += s[u];
    }
}
