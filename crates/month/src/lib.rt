// The month statement: each user's raw in a group from the expenses of one month, by the pass that makes a statement's sums. Which days a month
// has is asked once, before the pass.
#![tactic(auto)]

ghost use Rattle.std.specs.Prelude.{◌≡◌, ℕ, ◌≤◌, length};
ghost use Rattle.format.specs.Layout.{user_count};
ghost use Rattle.refusals.specs.Numbers.{code};
ghost use Rattle.rules.specs.Tests.{eight_at};
ghost use Rattle.rules.specs.Ledger.{group_absent};
ghost use Rattle.images.specs.Image.{decode};
ghost use Rattle.images.specs.Calls.{month_answer, month_raws_left};
ghost use Rattle.month.specs.Raws.{raws_from};

use layout::Image;
use refusals::Refusal;

// What each user paid less what he holds, written to eight lent numbers.
fn put_raws(raws: &mut [i64], paid: [u64; 8], held: [u64; 8])
    requires { (length raws.old ≡ user_count) × ((u : ℕ) → (eight_at paid u ≤ 17_592_186_040_320) × (eight_at held u ≤ 2_199_023_255_040)) }
    ensures { raws.new ≡ raws_from paid held }
{
    for u in 0..format::USERS {
        raws[u] = lines::raw_of(paid[u], held[u]);
    }
}

// There is no such group, or nobody was ever a member of it.
fn is_absent(image: &Image, group: u64) -> bool
    ensures { result ≡ group_absent (decode image.now) group }
{
    if format::GROUP_COUNT as u64 <= group {
        return true;
    }
    let r = codec::counters_of(image, group as u8);
    kinds::nobody_in(r.counters)
}

// The month statement of any group number of any image, or why it is refused: the image's fault, a group that is not there, another count of
// numbers than eight, a month that is not there. A refusal alters no number.
pub fn month_raws(image: &[u8], group: u64, month: u64, raws: &mut [i64]) -> Result<(), Refusal>
    ensures code { code result ≡ month_answer image.now group month (length raws.old) }
    ensures raws { raws.new ≡ month_raws_left image.now group month raws.old }
{
    image_check::check(image)?;
    let image: &Image = image.as_array().unwrap();
    if is_absent(image, group) {
        return Err(Refusal::GroupAbsent);
    }
    let lent = raws.len();
    if lent != format::USERS {
        return Err(Refusal::BadLines);
    }
    if format::MONTH_COUNT <= month {
        return Err(Refusal::BadMonth);
    }
    let g = group as u8;
    let r = codec::counters_of(image, g);
    let days = calendar::days_of(month);
    let sums = balance::sums_of(image, r.rule, g, days.first, days.last);
    put_raws(raws, sums.paid, sums.held);
    Ok(())
}
