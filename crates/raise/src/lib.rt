// An image of an older version raised to the current one, in a lent buffer: the older version's check, then one pass that writes the header, the groups
// with their rules, and each expense without a day.
#![tactic(auto)]

ghost use Rattle.std.specs.Prelude.{◌≡◌, ◌++◌, ◌≤◌, length, take, drop};
ghost use Rattle.format.specs.Layout.{v1, v2, groups_at, groups_size, expense_count, expenses_at};
ghost use Rattle.images.specs.Image.{table, header, groups, home_of, replica_of, decode_in};
ghost use Rattle.refusals.specs.Numbers.{fault_code};
ghost use Rattle.images.specs.Calls.{raise_answer, raise_image};
ghost use Rattle.raise.specs.Dated.{dated_part};

use layout::Image;
use refusals::Fault;

// Images of the older versions, and the expenses of either, which stand one behind the other.
type Image1 = [u8; format::IMAGE_SIZE_1];

type Image2 = [u8; format::IMAGE_SIZE_2];

type OlderExpenses = [u8; format::EXPENSE_COUNT * format::EXPENSE_SIZE_1];

// All groups of version 1, behind what stands in the buffer's first sixteen bytes.
pub fn raise_groups(old: &Image1, image: &mut Image)
    ensures { take expenses_at image.new ≡ take groups_at image.old ++ groups (decode_in v1 old.now) }
{
    for g in 0..format::GROUP_COUNT {
        let at = format::GROUPS_AT + g * format::GROUP_SIZE_1;
        let end = at + format::GROUP_SIZE_1;
        let r = raised::raised_group(&old[at..end]);
        store::write_group(image, g, r);
    }
}

// All groups of version 2, which are the same bytes in the current version.
pub fn copy_groups(old: &Image2, image: &mut Image)
    ensures { take expenses_at image.new ≡ take groups_at image.old ++ take groups_size (drop groups_at old.now) }
{
    image[format::GROUPS_AT..format::EXPENSES_AT].copy_from_slice(
        &old[format::GROUPS_AT..format::EXPENSES_AT],
    );
}

// All expenses of either older version, each with a day behind it, behind what stands before them.
pub fn raise_expenses(all: &OlderExpenses, image: &mut Image)
    ensures { image.new ≡ take expenses_at image.old ++ table expense_count (dated_part all.now) }
{
    for c in 0..format::EXPENSE_COUNT {
        let from = c * format::EXPENSE_SIZE_1;
        let to = from + format::EXPENSE_SIZE_1;
        let at = format::EXPENSES_AT + c * format::EXPENSE_SIZE;
        let end = at + format::EXPENSE_SIZE;
        let day = raised::day_of(fields::payer_in(&all[from..to]));
        store::put_dated(&mut image[at..end], &all[from..to], day);
    }
}

// The header of either older version, before the groups as they stand, and its expenses behind them.
fn raise_rest(old: &[u8], all: &OlderExpenses, image: &mut Image)
    requires { groups_at ≤ length old.now }
    ensures { image.new ≡ header (home_of old.now) (replica_of old.now) ++ (take groups_size (drop groups_at image.old) ++ table expense_count (dated_part all.now)) }
{
    header::put_header(image, header::replica_of(old), header::homes_of(old));
    raise_expenses(all, image);
}

// An image of version 1 into a buffer of the current size; no byte is written where the check refuses it.
pub fn raise_1(old: &Image1, image: &mut Image) -> Result<(), Fault>
    ensures code { fault_code result ≡ raise_answer old.now image.old }
    ensures bytes { image.new ≡ raise_image old.now image.old }
{
    older_check::check_1(old)?;
    raise_groups(old, image);
    let all = old[format::EXPENSES_AT_1..].as_array().unwrap();
    raise_rest(old, all, image);
    Ok(())
}

// The same of version 2.
pub fn raise_2(old: &Image2, image: &mut Image) -> Result<(), Fault>
    ensures code { fault_code result ≡ raise_answer old.now image.old }
    ensures bytes { image.new ≡ raise_image old.now image.old }
{
    older_check::check_2(old)?;
    copy_groups(old, image);
    let all = old[format::EXPENSES_AT..].as_array().unwrap();
    raise_rest(old, all, image);
    Ok(())
}

// The first fault that holds, a wrong length of either before those of the older image; the buffer is written only where there is none.
pub fn raise(old: &[u8], image: &mut [u8]) -> Result<(), Fault>
    ensures code { fault_code result ≡ raise_answer old.now image.old }
    ensures bytes { image.new ≡ raise_image old.now image.old }
{
    let Some(image) = image.as_mut_array() else {
        return Err(Fault::Length);
    };
    if let Some(old) = old.as_array::<{ format::IMAGE_SIZE_1 }>() {
        return raise_1(old, image);
    }
    if let Some(old) = old.as_array::<{ format::IMAGE_SIZE_2 }>() {
        return raise_2(old, image);
    }
    Err(Fault::Length)
}
