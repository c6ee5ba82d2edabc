// The entry points as C and Rust link them: each is the library's own, under its C name and with its promise. What refuses is told by its
// number, as `include/val.h` has it: C has no enum that holds another.
#![tactic(auto)]

ghost use Rattle.std.specs.Prelude.{◌≡◌, length, take, drop};
ghost use Rattle.images.specs.Image.{image_check};
ghost use Rattle.images.specs.Calls.{empty_answer, empty_image, act_answer, act_image, merge_images_answer, merge_images, lookup_part, statement_totals, statement_lines, payments_answer, payments_cents, month_answer, month_raws_left, balances_answer, balances_left, raise_answer, raise_image};
ghost use Rattle.lookup.specs.Place.{lookup_place};

use format::{Line, Part, Totals};
use refusals::Refusal;

// The image check: 0, or the first of 1 to 5 that holds.
#[unsafe(no_mangle)]
pub extern "C" fn val_check(image: &[u8]) -> u32
    ensures { result ≡ image_check image.now }
{
    refusals::answer(val::val_check(image).map_err(Refusal::Image))
}

// The empty image of a replica (the paper's van), with the homes of the eight users: 0, 1 or 4.
#[unsafe(no_mangle)]
pub extern "C" fn val_empty(image: &mut [u8], van: u64, homes: &[u8; 8]) -> u32
    ensures code { result ≡ empty_answer image.old van homes.now }
    ensures bytes { image.new ≡ empty_image image.old van homes.now }
{
    refusals::answer(val::val_empty(image, van, homes).map_err(Refusal::Image))
}

// An image of an older version raised into a lent buffer of the current size: 0 and written, or 1 to 5 and no byte altered.
#[unsafe(no_mangle)]
pub extern "C" fn val_raise(old: &[u8], image: &mut [u8]) -> u32
    ensures code { result ≡ raise_answer old.now image.old }
    ensures bytes { image.new ≡ raise_image old.now image.old }
{
    refusals::answer(val::val_raise(old, image).map_err(Refusal::Image))
}

// What an action record asks of an image: 0 and done, or 1 to 29 or 34 and no byte altered.
#[unsafe(no_mangle)]
pub extern "C" fn val_act(image: &mut [u8], action: &[u8]) -> u32
    ensures code { result ≡ act_answer image.old action.now }
    ensures bytes { image.new ≡ act_image image.old action.now }
{
    refusals::answer(val::val_act(image, action))
}

// The merge (the paper's join) of another image into one's own: 0 and done, or 1 to 5, 41 to 45, 30, 31 and no byte altered.
#[unsafe(no_mangle)]
pub extern "C" fn val_merge(own: &mut [u8], other: &[u8]) -> u32
    ensures code { result ≡ merge_images_answer own.old other.now }
    ensures bytes { own.new ≡ merge_images own.old other.now }
{
    refusals::answer(val::val_merge(own, other))
}

// The part of an expense by its place and length, both 0 where there is none.
#[unsafe(no_mangle)]
pub extern "C" fn val_lookup(image: &[u8], expense: u64) -> Part
    ensures place { result ≡ lookup_place image.now expense }
    ensures part { take result.len (drop result.at image.now) ≡ lookup_part image.now expense }
{
    val::val_lookup(image, expense)
}

// The statement of a group (the paper's crew) in eight lent lines, one for each user: 0, 1 to 5, 10 or 32. A refusal alters no line.
#[unsafe(no_mangle)]
pub extern "C" fn val_statement(image: &[u8], group: u64, lines: &mut [Line]) -> Totals
    ensures totals { result ≡ statement_totals image.now group (length lines.old) }
    ensures lines { lines.new ≡ statement_lines image.now group lines.old }
{
    val::val_statement(image, group, lines)
}

// The list of who pays whom of a group in 64 lent numbers, payer by receiver, row by row: 0, 1 to 5, 10, 32 or 33. A refusal alters no number.
#[unsafe(no_mangle)]
pub extern "C" fn val_payments(image: &[u8], group: u64, cents: &mut [u64]) -> u32
    ensures code { result ≡ payments_answer image.now group (length cents.old) }
    ensures cents { cents.new ≡ payments_cents image.now group cents.old }
{
    refusals::answer(val::val_payments(image, group, cents))
}

// The month statement of a group in eight lent numbers, each user's raw from the expenses of month 0 to 1199: 0, 1 to 5, 10, 32 or 35. A refusal
// alters no number.
#[unsafe(no_mangle)]
pub extern "C" fn val_month(image: &[u8], group: u64, month: u64, raws: &mut [i64]) -> u32
    ensures code { result ≡ month_answer image.now group month (length raws.old) }
    ensures raws { raws.new ≡ month_raws_left image.now group month raws.old }
{
    refusals::answer(val::val_month(image, group, month, raws))
}

// The balances of all sixteen groups in 128 lent numbers, group by group, each the one that the group's own statement shows and 0 where the group
// is absent: 0, 1 to 5 or 32. A refusal alters no number.
#[unsafe(no_mangle)]
pub extern "C" fn val_balances(image: &[u8], balances: &mut [i64]) -> u32
    ensures code { result ≡ balances_answer image.now (length balances.old) }
    ensures balances { balances.new ≡ balances_left image.now balances.old }
{
    refusals::answer(val::val_balances(image, balances))
}
