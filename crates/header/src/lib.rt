// The header of an image: mark, version, replica (the paper's van), home table, two reserved bytes. Read and tested, the same in every version;
// compared and written.
#![tactic(auto)]

ghost use Rattle.std.specs.Prelude.{◌≡◌, ◌≤◌, ltb, eqb, length};
ghost use Rattle.std.proofs.lemmas.List.Edits.{sets};
ghost use Rattle.format.specs.Layout.{Version, number_in, groups_at, replica_count};
ghost use Rattle.rules.specs.Tests.{every8, eight_at, eight_of};
ghost use Rattle.images.specs.Image.{header, replica_of, home_of, mark_ok, version_ok_in, header_ok};

use layout::Image;

pub fn mark_ok(image: &[u8]) -> bool
    requires { groups_at ≤ length image.now }
    ensures { result ≡ mark_ok image.now }
{
    image[..3] == format::MARK[..]
}

// The number in bytes 3 and 4 is that of a version.
pub fn version_ok(image: &[u8], number: u8) -> bool
    requires { groups_at ≤ length image.now }
    ensures { (v : Version) → number ≡ number_in v → result ≡ version_ok_in v image.now }
{
    eight::all([image[3] == number, image[4] == 0])
}

pub fn homes_ok(image: &[u8]) -> bool
    requires { groups_at ≤ length image.now }
    ensures { result ≡ every8 (λ u. ltb (home_of image.now u) replica_count) }
{
    homes_fit(homes_of(image))
}

pub fn header_ok(image: &[u8]) -> bool
    requires { groups_at ≤ length image.now }
    ensures { result ≡ header_ok image.now }
{
    let homes = homes_ok(image);
    eight::all([image[5] < 8, homes, image[14] == 0, image[15] == 0])
}

pub fn replica_of(image: &[u8]) -> u8
    requires { groups_at ≤ length image.now }
    ensures { result ≡ replica_of image.now }
{
    image[5]
}

// The home of any user number, 0 where there is no such user.
pub fn home_of(image: &[u8], u: u8) -> u8
    requires { groups_at ≤ length image.now }
    ensures { result ≡ home_of image.now u }
{
    let at = u as usize;
    if at < 8 {
        return image[6 + at];
    }
    0
}

// The whole home table.
pub fn homes_of(image: &[u8]) -> [u8; 8]
    requires { groups_at ≤ length image.now }
    ensures { result ≡ eight_of (home_of image.now) }
{
    std::array::from_fn(|u| image[6 + u])
}

// Two images have one home table.
pub fn homes_same(own: &Image, other: &Image) -> bool
    ensures { result ≡ every8 (λ u. eqb (home_of own.now u) (home_of other.now u)) }
{
    homes_of(own) == homes_of(other)
}

// Eight numbers that may be a home table.
pub fn homes_fit(homes: [u8; 8]) -> bool
    ensures { result ≡ every8 (λ u. ltb (eight_at homes u) replica_count) }
{
    eight::all(homes.map(|home| home < 8))
}

// The whole header.
pub fn put_header(image: &mut Image, replica: u8, homes: [u8; 8])
    ensures { image.new ≡ sets image.old 0 (header (eight_at homes) replica) }
{
    numbers::put(image, 0, format::MARK);
    numbers::put(image, 3, [format::VERSION, 0, replica]);
    numbers::put(image, 6, homes);
    numbers::put(image, 14, [0, 0]);
}
