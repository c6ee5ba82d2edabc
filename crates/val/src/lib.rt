// The library's entry points, for Rattle and, through `val_c`, for C and Rust: none requires anything, each promises an equation for what it
// returns and for every byte, line and number that it was lent. A refusal is an enum here; its number is what `val_c` answers.
#![tactic(auto)]

ghost use Rattle.std.specs.Prelude.{◌≡◌, length, take, drop};
ghost use Rattle.images.specs.Image.{image_check};
ghost use Rattle.images.specs.Calls.{empty_answer, empty_image, act_answer, act_image, merge_images_answer, merge_images, lookup_part, statement_totals, statement_lines, payments_answer, payments_cents, month_answer, month_raws_left, balances_answer, balances_left, raise_answer, raise_image};
ghost use Rattle.lookup.specs.Place.{lookup_place};
ghost use Rattle.refusals.specs.Numbers.{code, fault_code};

use format::{Line, Part, Totals};
use refusals::{Fault, Refusal};

// The image check: the first of 1 to 5 that holds, if one does.
pub fn val_check(image: &[u8]) -> Result<(), Fault>
    ensures { fault_code result ≡ image_check image.now }
{
    image_check::check(image)
}

// The empty image of a replica (the paper's van), with the homes of the eight users; or 1 or 4, and no byte altered.
pub fn val_empty(image: &mut [u8], van: u64, homes: &[u8; 8]) -> Result<(), Fault>
    ensures code { fault_code result ≡ empty_answer image.old van homes.now }
    ensures bytes { image.new ≡ empty_image image.old van homes.now }
{
    blank::empty_image(image, van, homes)
}

// An image of an older version raised into a lent buffer of the current size; or 1 to 5, and no byte altered.
pub fn val_raise(old: &[u8], image: &mut [u8]) -> Result<(), Fault>
    ensures code { fault_code result ≡ raise_answer old.now image.old }
    ensures bytes { image.new ≡ raise_image old.now image.old }
{
    raise::raise(old, image)
}

// What an action record asks of an image, done; or 1 to 29 or 34, and no byte altered.
pub fn val_act(image: &mut [u8], action: &[u8]) -> Result<(), Refusal>
    ensures code { code result ≡ act_answer image.old action.now }
    ensures bytes { image.new ≡ act_image image.old action.now }
{
    act::act(image, action)
}

// The merge (the paper's join) of another image into one's own; or 1 to 5, 41 to 45, 30 or 31, and no byte altered.
pub fn val_merge(own: &mut [u8], other: &[u8]) -> Result<(), Refusal>
    ensures code { code result ≡ merge_images_answer own.old other.now }
    ensures bytes { own.new ≡ merge_images own.old other.now }
{
    merge::merge(own, other)
}

// The expense's own bytes of the caller's image, or the empty part.
pub fn lookup(image: &[u8], expense: u64) -> &[u8]
    ensures { result.now ≡ lookup_part image.now expense }
{
    lookup::lookup(image, expense)
}

// The same part by its place and length.
pub fn val_lookup(image: &[u8], expense: u64) -> Part
    ensures place { result ≡ lookup_place image.now expense }
    ensures part { take result.len (drop result.at image.now) ≡ lookup_part image.now expense }
{
    lookup::part_of(image, expense)
}

// The statement of a group (the paper's crew) in eight lent lines, one for each user: 0, 1 to 5, 10 or 32. A refusal alters no line.
pub fn val_statement(image: &[u8], group: u64, lines: &mut [Line]) -> Totals
    ensures totals { result ≡ statement_totals image.now group (length lines.old) }
    ensures lines { lines.new ≡ statement_lines image.now group lines.old }
{
    let report = match figures::report_of(image, group, lines.len()) {
        Ok(report) => report,
        Err(refusal) => return figures::refused(refusal.number()).totals,
    };
    lines::fill(lines, report.lines);
    report.totals
}

// The list of who pays whom of a group in 64 lent numbers, payer by receiver, row by row; or 1 to 5, 10, 32 or 33. A refusal alters no number.
pub fn val_payments(image: &[u8], group: u64, cents: &mut [u64]) -> Result<(), Refusal>
    ensures code { code result ≡ payments_answer image.now group (length cents.old) }
    ensures cents { cents.new ≡ payments_cents image.now group cents.old }
{
    payments::list_payments(image, group, cents)
}

// The month statement of a group in eight lent numbers, each user's raw from the expenses of month 0 to 1199; or 1 to 5, 10, 32 or 35. A refusal
// alters no number.
pub fn val_month(image: &[u8], group: u64, month: u64, raws: &mut [i64]) -> Result<(), Refusal>
    ensures code { code result ≡ month_answer image.now group month (length raws.old) }
    ensures raws { raws.new ≡ month_raws_left image.now group month raws.old }
{
    month::month_raws(image, group, month, raws)
}

// The balances of all sixteen groups in 128 lent numbers, group by group, each the one that the group's own statement shows and 0 where the group
// is absent; or 1 to 5 or 32. A refusal alters no number.
pub fn val_balances(image: &[u8], balances: &mut [i64]) -> Result<(), Refusal>
    ensures code { code result ≡ balances_answer image.now (length balances.old) }
    ensures balances { balances.new ≡ balances_left image.now balances.old }
{
    balances::all_balances(image, balances)
}
