// Eight amounts, one for each user: an expense's shares are added to what each holds, its total to what its payer paid, and one to the uses of
// everyone with a share, in place; and eight amounts added up.
#![tactic(auto)]

ghost use Rattle.std.specs.Prelude.{◌≡◌, ℕ, ◌+◌, ◌≤◌, ltb, eqb};
ghost use Rattle.rules.specs.Tests.{number, only, sum8, eight_at, eight_of};
ghost use Rattle.amounts.specs.Amounts.{UpTo};

// One expense's shares are added to what each holds.
pub fn add_shares(held: &mut [u64; 8], s: [u32; 8])
    requires { UpTo 2_199_023_255_040 held.old }
    ensures { held.new ≡ eight_of (λ u. eight_at held.old u + eight_at s u) }
{
    for u in 0..format::USERS {
        held[u] += s[u] as u64;
    }
}

// One expense is counted for everyone with a share of it.
pub fn add_uses(uses: &mut [u32; 8], s: [u32; 8])
    requires { UpTo 512 uses.old }
    ensures { uses.new ≡ eight_of (λ u. eight_at uses.old u + number (ltb 0 (eight_at s u))) }
{
    for u in 0..format::USERS {
        uses[u] += u32::from(0 < s[u]);
    }
}

// Eight counts as amounts.
pub fn widened(n: [u32; 8]) -> [u64; 8]
    ensures { result ≡ eight_of (eight_at n) }
{
    n.map(|count| count as u64)
}

// One expense's total is added to what its payer paid; a payer who is no user adds nothing.
pub fn add_total(paid: &mut [u64; 8], payer: u8, total: u64)
    requires { UpTo 17_592_186_040_320 paid.old × (total ≤ 34_359_738_360) }
    ensures { paid.new ≡ eight_of (λ u. eight_at paid.old u + only (eqb payer u) total) }
{
    let by = payer as usize;
    if by < format::USERS {
        paid[by] += total;
    }
}

// Eight amounts together.
pub fn total(a: [u64; 8]) -> u64
    requires { (u : ℕ) → eight_at a u ≤ 17_592_186_040_320 }
    ensures { (result ≡ sum8 (eight_at a)) × (result ≤ 140_737_488_322_560) }
{
    a.iter().sum()
}
