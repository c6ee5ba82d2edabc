// The check of one record. Its first forty bytes are looked at in the same way in every version; the day, which stands behind them, is version 3's.
// Of the groups only the sets of those who were ever members count, and of the home table
// only who is at home on the replica; both are worked out once, for all records that they serve, and handed over with each. What is promised of
// a record holds of whatever groups and homes these were made from.
#![tactic(auto)]

ghost use Rattle.std.specs.Prelude.{◌≡◌, cond, ◌||◌, ℕ, ◌/◌, ◌≤◌, ◌<◌, eqb, length};
ghost use Rattle.format.specs.Layout.{groups_at};
ghost use Rattle.format.specs.Bytes.{shares_of, expense_of, group_of};
ghost use Rattle.rules.specs.Sound.{day_fits};
ghost use Rattle.images.specs.Meaning.{counters_of};
ghost use Rattle.images.specs.Image.{home_of, sound_as_in};
ghost use Rattle.fields.specs.Fields.{Sized, Part, sized_as};
ghost use Rattle.record_check.specs.Served.{Serves};
ghost use Rattle.record_check.specs.Sets.{known_set, Knows, own_marks, held_set, marks_within, group_fits};

// What the records of one replica are checked against: who was ever a member of each group, and the marks of the payers who are at home there.
#[derive(Clone, Copy)]
pub struct Basis {
    pub known: [u16; 16],
    pub own: [u16; 8],
}

// Those who were ever members of a group, in the second byte.
pub fn known_in(part: &[u8]) -> u16
    requires { 16 ≤ length part.now }
    ensures { result ≡ known_set (counters_of (group_of part.now)) }
{
    let f = codec::read_counters(part);
    sets::high_ever(f) as u16
}

// A payer's bit, or 1 where the payer's home is another replica. The 1 is in no set, so that one comparison of sets tests the home too, without a
// branch at each record that an Option would need.
pub fn own_mark(home: u8, r: u8, bit: u16) -> u16
    ensures { result ≡ cond (eqb home r) bit 1 }
{
    if home == r {
        return bit;
    }
    1
}

pub fn own_marks(image: &[u8], r: u8) -> [u16; 8]
    requires { groups_at ≤ length image.now }
    ensures { result ≡ own_marks (home_of image.now) r }
{
    std::array::from_fn(|u| own_mark(header::home_of(image, u as u8), r, 256 << u))
}

// Those who have a share, in the second byte.
pub fn held_in(part: &[u8]) -> u32
    requires { 40 ≤ length part.now }
    ensures { result ≡ held_set (shares_of part.now) }
{
    let s = codec::read_shares(part);
    sets::high_above(s, 0)
}

// Deleted is 0 or 1, and only those of a set have a bit. Sets are compared in the second byte: a first byte that is not zero there, from a payer of
// another replica or from deleted above 1, is in no set.
pub fn marks_fit(part: &[u8], among: u32) -> bool
    requires { 40 ≤ length part.now }
    ensures { result ≡ marks_within (expense_of part.now) among }
{
    let marks = fields::marks_in(part) as u32;
    let top = among | 1;
    marks | top == top
}

// The group fits those who have a share and the payer's mark.
pub fn group_fits(known: &[u16; 16], mine: u32, held: u32, part: &[u8]) -> bool
    requires { 40 ≤ length part.now }
    ensures { (counter : ℕ → ℕ → ℕ) → Knows known.now counter → result ≡ group_fits (expense_of part.now) (known_set (counter (expense_of part.now).group)) mine held }
{
    let group = fields::group_in(part);
    let at = group as usize;
    if format::GROUP_COUNT <= at {
        return (group == format::NO_GROUP) & (mine != 1) & marks_fit(part, mine);
    }
    let k = u32::from(known[at]);
    held | mine | k == k
}

// The day fits. An older version has none.
fn day_sound<const SIZE: usize>(part: &[u8]) -> bool
    requires { Part SIZE part.now }
    ensures { result ≡ (eqb SIZE 40 || day_fits (expense_of part.now).day) }
{
    if SIZE == format::EXPENSE_SIZE {
        return fields::day_fits(part);
    }
    true
}

// One record, handed over as a part, of so many bytes as the version has.
pub fn part_sound<const SIZE: usize>(basis: &Basis, part: &[u8], c: usize) -> bool
    requires { Sized SIZE × (length part.now ≡ SIZE) }
    ensures { (home : ℕ → ℕ) (counter : ℕ → ℕ → ℕ) → Serves basis.now home counter (c / 64) → result ≡ sound_as_in (sized_as SIZE) home counter c part.now }
{
    let payer = fields::payer_in(part) as usize;
    if format::USERS <= payer {
        return fields::is_absent::<SIZE>(part);
    }
    if !day_sound::<SIZE>(part) {
        return false;
    }
    let held = held_in(part);
    if held == 0 {
        return false;
    }
    if !marks_fit(part, held) {
        return false;
    }
    if !fields::total_fits(part) {
        return false;
    }
    group_fits(&basis.known, u32::from(basis.own[payer]), held, part)
}
