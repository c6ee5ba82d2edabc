// Plain numbers at a place of lent bytes, the first byte the lowest: read, and written. The place is the caller's to know.
#![tactic(auto)]

ghost use Rattle.std.specs.Prelude.{◌≡◌, ◌+◌, ◌*◌, ◌/◌, ◌%◌, ◌≤◌, ◌++◌, length};
ghost use Rattle.std.proofs.lemmas.List.Edits.{sets};
ghost use Rattle.format.specs.Bytes.{u16_at, u32_at, le16, le32};

// A number from its bytes.
pub fn number32(a: u8, b: u8, c: u8, d: u8) -> u32
    ensures { result ≡ a + 256 * (b + 256 * (c + 256 * d)) }
{
    u32::from_le_bytes([a, b, c, d])
}

// Numbers at a place. One function for every width would need a trait of the numbers that bytes make: longer than these lines.
pub fn read_u16(s: &[u8], at: usize) -> u16
    requires { at + 2 ≤ length s.now }
    ensures { result ≡ u16_at s.now at }
{
    u16::from_le_bytes(std::array::from_fn(|i| s[at + i]))
}

pub fn read_u32(s: &[u8], at: usize) -> u32
    requires { at + 4 ≤ length s.now }
    ensures { result ≡ u32_at s.now at }
{
    u32::from_le_bytes(std::array::from_fn(|i| s[at + i]))
}

// Eight bytes as one word, by its halves.
pub fn read_u64(s: &[u8], at: usize) -> u64
    requires { at + 8 ≤ length s.now }
    ensures { (result % 4_294_967_296 ≡ u32_at s.now at) × (result / 4_294_967_296 ≡ u32_at s.now (at + 4)) }
{
    u64::from_le_bytes(std::array::from_fn(|i| s[at + i]))
}

// Bytes, and numbers as bytes, written at a place.
pub fn put<const N: usize>(s: &mut [u8], at: usize, bytes: [u8; N])
    requires { at + N ≤ length s.old }
    ensures { s.new ≡ sets s.old at bytes.entry }
{
    s[at..at + N].copy_from_slice(&bytes);
}

pub fn put_u16(s: &mut [u8], at: usize, v: u16)
    requires { at + 2 ≤ length s.old }
    ensures { s.new ≡ sets s.old at (le16 v) }
{
    put::<2>(s, at, v.to_le_bytes());
}

pub fn put_u32(s: &mut [u8], at: usize, v: u32)
    requires { at + 4 ≤ length s.old }
    ensures { s.new ≡ sets s.old at (le32 v) }
{
    put::<4>(s, at, v.to_le_bytes());
}

pub fn put_u64(s: &mut [u8], at: usize, v: u64)
    requires { at + 8 ≤ length s.old }
    ensures { s.new ≡ sets s.old at (le32 (v % 4_294_967_296) ++ le32 (v / 4_294_967_296)) }
{
    put_u32(s, at, (v % 4_294_967_296) as u32);
    put_u32(s, at + 4, (v / 4_294_967_296) as u32);
}

// Forty bytes copied, by value: all are read before the first is written, so a compiler moves sixteen at once. A copy from slice to slice asks first
// whether they overlap, which took a tenth more for each image raised.
pub fn copy_forty(from: &[u8], to: &mut [u8])
    requires { (length from.now ≡ 40) × (40 ≤ length to.old) }
    ensures { to.new ≡ sets to.old 0 from.now }
{
    let forty: [u8; 40] = *from.as_array().unwrap();
    *to.first_chunk_mut().unwrap() = forty;
}
