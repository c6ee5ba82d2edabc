// The line of each user: raw, gift, part and balance, by value, the signed ones far within 64 bits; and eight lines copied into lent ones.
#![tactic(auto)]

ghost use Rattle.std.specs.Prelude.{◌≡◌, ℕ, ◌≤◌, ◌<◌, pos, nat_abs, ◌+ℤ◌, ◌-ℤ◌, length};
ghost use Rattle.std.proofs.Math.IntN.{sub_ℕ};
ghost use Rattle.rules.specs.Tests.{eight_at};
ghost use Rattle.rules.specs.Balance.{balances_in};
ghost use Rattle.lines.specs.Lines.{line_from, line_at, lines_from};

use format::Line;

// Raw is what was paid less what is held.
pub fn raw_of(paid: u64, held: u64) -> i64
    requires { (paid ≤ 17_592_186_040_320) × (held ≤ 2_199_023_255_040) }
    ensures { result ≡ sub_ℕ paid held }
{
    paid as i64 - held as i64
}

pub fn balance_of(raw: i64, gift: u64, part: u64) -> i64
    requires { (nat_abs raw ≤ 19_791_209_295_360) × (gift ≤ 17_592_186_040_320) × (part ≤ 140_737_488_322_561) }
    ensures { result ≡ (raw -ℤ pos gift +ℤ pos part) }
{
    raw - gift as i64 + part as i64
}

// The line of one user, of user u, and of all.
pub fn line_of(counter: u16, paid: u64, held: u64, gift: u64, part: u64) -> Line
    requires { (paid ≤ 17_592_186_040_320) × (held ≤ 2_199_023_255_040) × (gift ≤ 17_592_186_040_320) × (part ≤ 140_737_488_322_561) }
    ensures { result ≡ line_from counter paid held gift part }
{
    let raw = raw_of(paid, held);
    let balance = balance_of(raw, gift, part);
    Line {
        counter,
        raw,
        gift,
        part,
        balance,
    }
}

fn line_at(
    f: [u16; 8],
    paid: [u64; 8],
    held: [u64; 8],
    gifts: [u64; 8],
    parts: [u64; 8],
    u: usize,
) -> Line
    requires { (u < 8) × ((v : ℕ) → (eight_at paid v ≤ 17_592_186_040_320) × (eight_at held v ≤ 2_199_023_255_040) × (eight_at gifts v ≤ 17_592_186_040_320) × (eight_at parts v ≤ 140_737_488_322_561)) }
    ensures { result ≡ line_at f paid held gifts parts u }
{
    line_of(f[u], paid[u], held[u], gifts[u], parts[u])
}

pub fn lines_of(
    f: [u16; 8],
    paid: [u64; 8],
    held: [u64; 8],
    gifts: [u64; 8],
    parts: [u64; 8],
) -> [Line; 8]
    requires { (u : ℕ) → (eight_at paid u ≤ 17_592_186_040_320) × (eight_at held u ≤ 2_199_023_255_040) × (eight_at gifts u ≤ 17_592_186_040_320) × (eight_at parts u ≤ 140_737_488_322_561) }
    ensures { result ≡ lines_from f paid held gifts parts }
{
    std::array::from_fn(|u| line_at(f, paid, held, gifts, parts, u))
}

// The balance that a line shows, and the balances of all eight.
fn balance_shown(line: Line) -> i64
    ensures { result ≡ line.balance }
{
    line.balance
}

pub fn balances_of(lines: [Line; 8]) -> [i64; 8]
    ensures { result ≡ balances_in lines }
{
    lines.map(balance_shown)
}

// Eight lines are copied into eight lent ones.
pub fn fill(lines: &mut [Line], all: [Line; 8])
    requires { length lines.old ≡ 8 }
    ensures { lines.new ≡ all }
{
    lines.copy_from_slice(&all);
}
