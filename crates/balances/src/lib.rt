// The balances of all sixteen groups, for any image: the refusals in their order, the sums of all groups from one pass over the expenses, and the
// figures group by group, as the statement makes them.
#![tactic(auto)]

ghost use Rattle.std.specs.Prelude.{◌≡◌, ◌*◌, ◌<◌, length};
ghost use Rattle.std.proofs.Math.Seq.{paste};
ghost use Rattle.format.specs.Layout.{group_count, expense_count, balances_size};
ghost use Rattle.rules.specs.Together.{balances_of, all_balances};
ghost use Rattle.images.specs.Image.{decode, image_check};
ghost use Rattle.images.specs.Calls.{balances_answer, balances_left};
ghost use Rattle.refusals.specs.Numbers.{code};
ghost use Rattle.gather.specs.Rows.{RowsTo};

use gather::Rows;
use layout::Image;
use refusals::Refusal;

// The eight balances of one group, from the rows of all: zeros where it is absent.
fn balances_at(image: &Image, g: usize, rows: &Rows) -> [i64; 8]
    requires { (g < group_count) × (image_check image.now ≡ 0) × RowsTo (decode image.now) expense_count rows.now }
    ensures { result ≡ balances_of (decode image.now) g }
{
    let r = codec::counters_of(image, g as u8);
    let f = r.counters;
    if kinds::nobody_in(f) {
        return [0; 8];
    }
    let report = figures::report_from(r.rule, f, rows.sums_at(g));
    lines::balances_of(report.lines)
}

// Eight numbers written to the places of group g.
fn put_eight(balances: &mut [i64], g: usize, eight: [i64; 8])
    requires { (g < group_count) × (length balances.old ≡ balances_size) }
    ensures { balances.new ≡ paste balances.old (8 * g) eight 8 }
{
    for u in 0..format::USERS {
        balances[8 * g + u] = eight[u];
    }
}

// All groups of a checked image, one behind the other.
fn put_all(balances: &mut [i64], image: &Image)
    requires { (length balances.old ≡ balances_size) × (image_check image.now ≡ 0) }
    ensures { balances.new ≡ all_balances (decode image.now) }
{
    let mut rows = Rows::new();
    rows.add_all(image);
    for g in 0..format::GROUP_COUNT {
        let eight = balances_at(image, g, &rows);
        put_eight(balances, g, eight);
    }
}

// The balances of any image. A refusal alters no number.
pub fn all_balances(image: &[u8], balances: &mut [i64]) -> Result<(), Refusal>
    ensures code { code result ≡ balances_answer image.now (length balances.old) }
    ensures balances { balances.new ≡ balances_left image.now balances.old }
{
    image_check::check(image)?;
    if balances.len() != format::BALANCES_SIZE {
        return Err(Refusal::BadLines);
    }
    let image: &Image = image.as_array().unwrap();
    put_all(balances, image);
    Ok(())
}
