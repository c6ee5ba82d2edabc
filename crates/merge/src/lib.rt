// Merge of another image into one's own (the paper's join): first every refusal, then record by record in place.
#![tactic(auto)]

ghost use Rattle.std.specs.Prelude.{◌≡◌};
ghost use Rattle.format.specs.Layout.{group_count, expense_count};
ghost use Rattle.refusals.specs.Numbers.{code};
ghost use Rattle.images.specs.Calls.{merge_images_answer, merge_images};
ghost use Rattle.merge.specs.Merged.{groups_merged, expenses_merged};

use layout::Image;
use refusals::Refusal;

// All expenses of an image.
pub fn merge_expenses(own: &mut Image, other: &Image)
    ensures { own.new ≡ expenses_merged expense_count own.old other.now }
{
    for expense in 0..format::EXPENSE_COUNT {
        let at = format::EXPENSES_AT + expense * format::EXPENSE_SIZE;
        let end = at + format::EXPENSE_SIZE;
        merge_record::merge_part(&mut own[at..end], layout::expense_part(other, expense));
    }
}

// All groups of an image.
pub fn merge_groups(own: &mut Image, other: &Image)
    ensures { own.new ≡ groups_merged group_count own.old other.now }
{
    for g in 0..format::GROUP_COUNT {
        let r = merge_record::larger_group(codec::group_at(own, g), codec::group_at(other, g));
        store::write_group(own, g, r);
    }
}

// The first refusal that holds; own is written only where there is none.
pub fn merge(own: &mut [u8], other: &[u8]) -> Result<(), Refusal>
    ensures code { code result ≡ merge_images_answer own.old other.now }
    ensures bytes { own.new ≡ merge_images own.old other.now }
{
    image_check::check(own)?;
    image_check::check(other).map_err(Refusal::Other)?;
    let own: &mut Image = own.as_mut_array().unwrap();
    let other: &Image = other.as_array().unwrap();
    if !header::homes_same(own, other) {
        return Err(Refusal::HomesDiffer);
    }
    if !agree::images_agree(own, other) {
        return Err(Refusal::Conflict);
    }
    merge_expenses(own, other);
    merge_groups(own, other);
    Ok(())
}
