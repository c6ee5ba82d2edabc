// Sets of users as bytes, bit u for user u, and the same in the second byte of a number: made, united, compared.
#![tactic(auto)]

ghost use Rattle.std.specs.Prelude.{◌≡◌, ℕ, ◌*◌, ◌^◌, ◌<◌, Bool, ltb, eqb};
ghost use Rattle.std.specs.Int.Bits.{bit_or};
ghost use Rattle.rules.specs.Tests.{number, eight_at};
ghost use Rattle.rules.specs.Ledger.{member_in, ever_in};
ghost use Rattle.images.specs.Meaning.{read_bits, bits};
ghost use Rattle.sets.specs.Marked.{Marks};

// The bit of a test that holds, at place k.
pub fn raised(a: bool, k: u32) -> u32
    requires { k < 16 }
    ensures { result ≡ number a * 2 ^ k }
{
    u32::from(a) << k
}

// The users for whom a test of what they have holds, in the second byte of a number, the first byte zero. All eight users are treated alike
// there, the first one too, so a compiler takes them together.
pub fn high_mask<T: Copy, F: Fn(T) -> bool>(items: [T; 8], test: F) -> u32
    requires { F.IsAlwaysCallable test }
    ensures set { (p : ℕ → Bool) (d : T) → Marks (F.post test) items d p → result ≡ 256 * bits p }
    ensures fits { result < 65_536 }
{
    let mut set = 0;
    for u in 0..8u32 {
        set |= raised(test(items[u as usize]), 8 + u);
    }
    set
}

// The same as a byte: bit u for user u.
pub fn mask<T: Copy, F: Fn(T) -> bool>(items: [T; 8], test: F) -> u8
    requires { F.IsAlwaysCallable test }
    ensures { (p : ℕ → Bool) (d : T) → Marks (F.post test) items d p → result ≡ bits p }
{
    (high_mask(items, test) / 256) as u8
}

// The users with a positive share.
pub fn positive(s: [u32; 8]) -> u8
    ensures { result ≡ bits (λ u. ltb 0 (eight_at s u)) }
{
    mask(s, |share| 0 < share)
}

// The users that were ever members, and the members.
pub fn ever(f: [u16; 8]) -> u8
    ensures { result ≡ bits (ever_in (eight_at f)) }
{
    mask(f, |counter| 0 < counter)
}

pub fn members(f: [u16; 8]) -> u8
    ensures { result ≡ bits (member_in (eight_at f)) }
{
    mask(f, |counter| counter % 2 == 1)
}

// The users whose share is above a limit, and those that were ever members, in the second byte.
pub fn high_above(s: [u32; 8], limit: u32) -> u32
    ensures { result ≡ 256 * bits (λ u. ltb limit (eight_at s u)) }
{
    high_mask(s, |share| limit < share)
}

pub fn high_ever(f: [u16; 8]) -> u32
    ensures { result ≡ 256 * bits (ever_in (eight_at f)) }
{
    high_mask(f, |counter| 0 < counter)
}

// Whoever is in the first set is in the second.
pub fn within(a: u8, b: u8) -> bool
    ensures { result ≡ eqb (bit_or a b) b }
{
    (a | b) == b
}

// Whether a user is in a set; the set of one user; a set with one user more; two sets together.
pub fn has_bit(acknowledged: u8, u: u8) -> bool
    requires { u < 8 }
    ensures { result ≡ read_bits acknowledged u }
{
    (acknowledged >> u) % 2 == 1
}

pub fn bit(u: u8) -> u8
    requires { u < 8 }
    ensures { result ≡ 2 ^ u }
{
    1u8 << u
}

pub fn with_bit(acknowledged: u8, u: u8) -> u8
    requires { u < 8 }
    ensures { result ≡ bit_or acknowledged (2 ^ u) }
{
    acknowledged | bit(u)
}

pub fn union(a: u8, b: u8) -> u8
    ensures { result ≡ bit_or a b }
{
    a | b
}
