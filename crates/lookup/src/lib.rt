// Lookup of one expense by its number: whether a checked image has it, where it stands, and its bytes as a part of the lent image.
#![tactic(auto)]

ghost use Rattle.std.specs.Prelude.{◌≡◌, ◌<◌, take, drop};
ghost use Rattle.format.specs.Layout.{expense_count, expense_place};
ghost use Rattle.images.specs.Calls.{lookup_part};
ghost use Rattle.lookup.specs.Place.{place_at, lookup_place};

use format::Part;
use layout::Image;

// Where the expense stands in an image.
pub fn place_of(expense: u64) -> usize
    requires { expense < expense_count }
    ensures { result ≡ expense_place expense }
{
    format::EXPENSES_AT + (expense as usize) * format::EXPENSE_SIZE
}

// Where the expense of this number stands in a checked image, if it is there.
pub fn find(image: &[u8], expense: u64) -> Option<usize>
    ensures { result ≡ place_at image.now expense }
{
    if image_check::check(image).is_err() {
        return None;
    }
    let c = expense as usize;
    if format::EXPENSE_COUNT <= c {
        return None;
    }
    let image: &Image = image.as_array().unwrap();
    let at = place_of(expense);
    (fields::payer_in(layout::expense_part(image, c)) != format::NO_EXPENSE).then_some(at)
}

// The expense's own bytes of the caller's image, or the empty part: a rule of the project, which has no Option here.
pub fn lookup(image: &[u8], expense: u64) -> &[u8]
    ensures { result.now ≡ lookup_part image.now expense }
{
    let Some(at) = find(image, expense) else {
        return &image[..0];
    };
    // By the place that `find` told: as an array, the image would be asked for its length once more.
    &image[at..at + format::EXPENSE_SIZE]
}

// The same part by its place and length, both 0 where it is empty, as the C interface has it.
pub fn part_of(image: &[u8], expense: u64) -> Part
    ensures place { result ≡ lookup_place image.now expense }
    ensures part { take result.len (drop result.at image.now) ≡ lookup_part image.now expense }
{
    let Some(at) = find(image, expense) else {
        return Part { at: 0, len: 0 };
    };
    Part {
        at,
        len: format::EXPENSE_SIZE,
    }
}
