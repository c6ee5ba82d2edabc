// The parts of a group's gifts by use (rule 2), by value. `f` is the group's eight membership counters, odd for a member; `w` the eight weights.
// Gifts are at most 8 × 17,592,186,040,320, what eight users can have paid, and a weight counts some of the 512 expenses: a product of the
// two is at most 72,057,594,021,150,720, and eight of these are below 2^63.
#![tactic(auto)]

ghost use Rattle.std.specs.Prelude.{◌≡◌, ℕ, ◌+◌, ◌*◌, ◌/◌, ◌%◌, ◌≤◌, ◌<◌, ltb, eqb};
ghost use Rattle.rules.specs.Tests.{number, only, eight_at, eight_of};
ghost use Rattle.rules.specs.Ledger.{member_in};
ghost use Rattle.rules.specs.Parts.{sum_over};
ghost use Rattle.usage.specs.Usage.{key_at, keys_from, rank_by, cents_by, cents_from, by_use_from};

// A member's figure; a non-member has none.
pub fn counted(f: [u16; 8], a: [u64; 8], u: usize) -> u64
    requires { (u < 8) × ((v : ℕ) → eight_at a v ≤ 72_057_594_021_150_720) }
    ensures { (result ≡ only (member_in (eight_at f) u) (eight_at a u)) × (result ≤ 72_057_594_021_150_720) }
{
    if f[u] % 2 == 1 {
        return a[u];
    }
    0
}

// Each user's figure so; the sum of a figure over the members.
fn figures_of(f: [u16; 8], a: [u64; 8]) -> [u64; 8]
    requires { (v : ℕ) → eight_at a v ≤ 72_057_594_021_150_720 }
    ensures { result ≡ eight_of (λ u. only (member_in (eight_at f) u) (eight_at a u)) }
{
    std::array::from_fn(|u| counted(f, a, u))
}

pub fn sum_over(f: [u16; 8], a: [u64; 8]) -> u64
    requires { (v : ℕ) → eight_at a v ≤ 72_057_594_021_150_720 }
    ensures { result ≡ sum_over (member_in (eight_at f)) (eight_at a) }
{
    figures_of(f, a).iter().sum()
}

// Gifts × weight, of a user and of all; these div total weight, and the remainders.
fn product(gifts: u64, w: [u64; 8], u: usize) -> u64
    requires { (u < 8) × (gifts ≤ 140_737_488_322_560) × ((v : ℕ) → eight_at w v ≤ 512) }
    ensures { result ≡ gifts * eight_at w u }
{
    gifts * w[u]
}

pub fn products_of(gifts: u64, w: [u64; 8]) -> [u64; 8]
    requires { (gifts ≤ 140_737_488_322_560) × ((v : ℕ) → eight_at w v ≤ 512) }
    ensures { result ≡ eight_of (λ u. gifts * eight_at w u) }
{
    std::array::from_fn(|u| product(gifts, w, u))
}

pub fn quotients_of(n: [u64; 8], total: u64) -> [u64; 8]
    requires { 0 < total }
    ensures { result ≡ eight_of (λ u. eight_at n u / total) }
{
    n.map(|product| product / total)
}

pub fn remainders_of(n: [u64; 8], total: u64) -> [u64; 8]
    requires { 0 < total }
    ensures { result ≡ eight_of (λ u. eight_at n u % total) }
{
    n.map(|product| product % total)
}

// A user's number in the order of the remainders, the larger the earlier: of equal remainders the lower user number comes first, and 0 is a
// non-member's. So who comes before whom is one comparison, and no branch.
pub fn key_at(f: [u16; 8], r: [u64; 8], u: usize) -> u64
    requires { (u < 8) × ((v : ℕ) → eight_at r v ≤ 72_057_594_021_150_720) }
    ensures { result ≡ key_at f r u }
{
    if f[u] % 2 != 1 {
        return 0;
    }
    8 * r[u] + (8 - u as u64)
}

pub fn keys_of(f: [u16; 8], r: [u64; 8]) -> [u64; 8]
    requires { (v : ℕ) → eight_at r v ≤ 72_057_594_021_150_720 }
    ensures { result ≡ keys_from f r }
{
    std::array::from_fn(|u| key_at(f, r, u))
}

// 1 where another comes before, by the numbers of both; else 0.
pub fn ahead(mine: u64, other: u64) -> u64
    ensures { (result ≡ number (ltb mine other)) × (result ≤ 1) }
{
    eight::one(mine < other) as u64
}

// Of all eight; how many come before the user of this number.
fn all_ahead(k: [u64; 8], mine: u64) -> [u64; 8]
    ensures { result ≡ eight_of (λ w. number (ltb mine (eight_at k w))) }
{
    std::array::from_fn(|u| ahead(mine, k[u]))
}

pub fn rank_of(k: [u64; 8], mine: u64) -> u64
    ensures { result ≡ rank_by k mine }
{
    all_ahead(k, mine).iter().sum()
}

// A member's quotient, and a cent more where fewer members come before him than cents are left over; that of user u; all eight of them.
pub fn cents_at(f: u16, q: u64, k: [u64; 8], mine: u64, left: u64) -> u64
    requires { q ≤ 72_057_594_021_150_720 }
    ensures { result ≡ only (eqb (f % 2) 1) (q + number (ltb (rank_by k mine) left)) }
{
    if f % 2 != 1 {
        return 0;
    }
    if rank_of(k, mine) < left {
        return q + 1;
    }
    q
}

fn cents_for(f: [u16; 8], q: [u64; 8], k: [u64; 8], left: u64, u: usize) -> u64
    requires { (u < 8) × ((v : ℕ) → eight_at q v ≤ 72_057_594_021_150_720) }
    ensures { result ≡ cents_by f q k left u }
{
    cents_at(f[u], q[u], k, k[u], left)
}

pub fn cents_of(f: [u16; 8], q: [u64; 8], r: [u64; 8], left: u64) -> [u64; 8]
    requires { ((v : ℕ) → eight_at q v ≤ 72_057_594_021_150_720) × ((v : ℕ) → eight_at r v ≤ 72_057_594_021_150_720) }
    ensures { result ≡ cents_from f q r left }
{
    let k = keys_of(f, r);
    std::array::from_fn(|u| cents_for(f, q, k, left, u))
}

// The parts by use, where the members' weights add up to a total above zero.
pub fn by_use(f: [u16; 8], gifts: u64, w: [u64; 8], total: u64) -> [u64; 8]
    requires { (gifts ≤ 140_737_488_322_560) × ((v : ℕ) → eight_at w v ≤ 512) × (total ≡ sum_over (member_in (eight_at f)) (eight_at w)) × (0 < total) }
    ensures { result ≡ by_use_from f gifts w }
{
    let n = products_of(gifts, w);
    let q = quotients_of(n, total);
    let r = remainders_of(n, total);
    let left = gifts - sum_over(f, q);
    cents_of(f, q, r, left)
}
