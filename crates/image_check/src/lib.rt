// The image check, 1 to 5: one pass over the bytes, group by group (group_check) and then the expenses of one replica after those of another, each by
// the check of one record. What the groups tell of who was ever a member is kept from the first pass for the second. All but the length's test
// serves the older versions too, by the number of bytes that an expense has there.
#![tactic(auto)]

ghost use Rattle.std.specs.Prelude.{◌≡◌, true, ℕ, ◌+◌, ◌*◌, ◌/◌, ◌%◌, ◌≤◌, length, MatchResult};
ghost use Rattle.format.specs.Layout.{Version, number_in, image_size_in, groups_at, expense_count};
ghost use Rattle.rules.specs.Tests.{every_below};
ghost use Rattle.images.specs.Image.{home_of, mark_ok, version_ok_in, header_ok, image_check, image_check_in};
ghost use Rattle.fields.specs.Fields.{Sized};
ghost use Rattle.record_check.specs.Sets.{Knows};
ghost use Rattle.record_check.specs.Served.{Serves};
ghost use Rattle.image_check.specs.Among.{sound_among};
ghost use Rattle.image_check.specs.Versions.{Handed};
ghost use Rattle.refusals.specs.Numbers.{fault_number, fault_code};

use record_check::Basis;
use refusals::Fault;

// Eight records from a number on: all absent at one look, or one by one.
pub fn row_sound<const SIZE: usize>(all: &[u8], basis: &Basis, from: usize) -> bool
    requires { Sized SIZE × (length all.now ≡ expense_count * SIZE) × (from + 8 ≤ expense_count) × (from % 8 ≡ 0) }
    ensures { (home : ℕ → ℕ) (counter : ℕ → ℕ → ℕ) → Serves basis.now home counter (from / 64) → result ≡ every_below 8 (λ i. sound_among SIZE home counter all.now (from + i)) }
{
    if rows::eight_absent::<SIZE>(all, from) {
        return true;
    }
    for i in 0..8 {
        let c = from + i;
        let part = rows::part_at::<SIZE>(all, c);
        if !record_check::part_sound::<SIZE>(basis, part, c) {
            return false;
        }
    }
    true
}

// The records that one replica owns, row by row, given its payers.
pub fn rows_sound<const SIZE: usize>(all: &[u8], basis: &Basis, from: usize) -> bool
    requires { Sized SIZE × (length all.now ≡ expense_count * SIZE) × (from + 64 ≤ expense_count) × (from % 64 ≡ 0) }
    ensures { (home : ℕ → ℕ) (counter : ℕ → ℕ → ℕ) → Serves basis.now home counter (from / 64) → result ≡ every_below 64 (λ i. sound_among SIZE home counter all.now (from + i)) }
{
    for row in 0..8 {
        if !row_sound::<SIZE>(all, basis, from + 8 * row) {
            return false;
        }
    }
    true
}

// All records of an image, those of one replica after those of another. The payers of a replica's are those at home there, by the image's header.
pub fn expenses_sound<const SIZE: usize>(image: &[u8], all: &[u8], known: &[u16; 16]) -> bool
    requires { Sized SIZE × (groups_at ≤ length image.now) × (length all.now ≡ expense_count * SIZE) }
    ensures { (counter : ℕ → ℕ → ℕ) → Knows known.now counter → result ≡ every_below expense_count (sound_among SIZE (home_of image.now) counter all.now) }
{
    for replica in 0..format::REPLICAS {
        let basis = Basis {
            known: *known,
            own: record_check::own_marks(image, replica),
        };
        let from = format::EXPENSES_EACH * replica as usize;
        if !rows_sound::<SIZE>(all, &basis, from) {
            return false;
        }
    }
    true
}

// The first fault, 2 to 4, that the header alone shows of an image of so many bytes as its version has. Who goes over the groups asks for this first:
// bytes that are no image then cost no walk.
#[tactic(auto, using(crate::proofs::Answered::unmarked))]
pub fn header_fault(image: &[u8], version: u8) -> Result<(), Fault>
    requires { groups_at ≤ length image.now }
    ensures { (v : Version) → version ≡ number_in v → length image.now ≡ image_size_in v → MatchResult result (λ _. (mark_ok image.now ≡ true) × (version_ok_in v image.now ≡ true) × (header_ok image.now ≡ true)) (λ f. fault_number f ≡ image_check_in v image.now) }
{
    if !header::mark_ok(image) {
        return Err(Fault::Mark);
    }
    if !header::version_ok(image, version) {
        return Err(Fault::Version);
    }
    if !header::header_ok(image) {
        return Err(Fault::Header);
    }
    Ok(())
}

// The first fault, 2 to 5, of an image of so many bytes as its version has, given who was ever a member of each group, or none where a rule doesn't fit.
pub fn check_as<const SIZE: usize>(
    image: &[u8],
    version: u8,
    expenses_at: usize,
    known: Option<[u16; 16]>,
) -> Result<(), Fault>
    requires { (v : Version) × Handed v SIZE version expenses_at known image.now }
    ensures { (v : Version) → Handed v SIZE version expenses_at known image.now → fault_code result ≡ image_check_in v image.now }
{
    header_fault(image, version)?;
    let Some(known) = known else {
        return Err(Fault::Header);
    };
    if !expenses_sound::<SIZE>(image, &image[expenses_at..], &known) {
        return Err(Fault::Expense);
    }
    Ok(())
}

// The first fault, 1 to 5, that the image has.
pub fn check(image: &[u8]) -> Result<(), Fault>
    ensures { fault_code result ≡ image_check image.now }
{
    if image.len() != format::IMAGE_SIZE {
        return Err(Fault::Length);
    }
    header_fault(image, format::VERSION)?;
    let known = group_check::known_sets(image);
    check_as::<{ format::EXPENSE_SIZE }>(image, format::VERSION, format::EXPENSES_AT, known)
}
