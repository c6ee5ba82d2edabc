// The empty image: its refusals in their order, its header, and behind that no group and no expense.
#![tactic(auto)]

ghost use Rattle.std.specs.Prelude.{◌≡◌};
ghost use Rattle.format.specs.Layout.{expense_count};
ghost use Rattle.refusals.specs.Numbers.{fault_code};
ghost use Rattle.images.specs.Calls.{empty_answer, empty_image};
ghost use Rattle.blank.specs.Blank.{absent_below, blanked};

use layout::Image;
use refusals::Fault;

// Each expense's payer says that there's no expense; its other bytes stay.
fn mark_absent(image: &mut Image)
    ensures { image.new ≡ absent_below expense_count image.old }
{
    for c in 0..format::EXPENSE_COUNT {
        store::put_payer(image, c, format::NO_EXPENSE);
    }
}

// Every group and every expense absent. An absent group is zeros, and so is an absent expense but for its payer:
// all zeros are written in one go, which is faster than record by record.
pub fn blank_tables(image: &mut Image)
    ensures { image.new ≡ blanked image.old }
{
    image[format::GROUPS_AT..].fill(0);
    mark_absent(image);
}

// The empty image of a replica, with the homes of the eight users, in a lent buffer. A refusal alters no byte.
pub fn empty_image(image: &mut [u8], replica: u64, homes: &[u8; 8]) -> Result<(), Fault>
    ensures code { fault_code result ≡ empty_answer image.old replica homes.now }
    ensures bytes { image.new ≡ empty_image image.old replica homes.now }
{
    let Some(image) = image.as_mut_array() else {
        return Err(Fault::Length);
    };
    let table = *homes;
    let fits = header::homes_fit(table);
    if !((replica < 8) & fits) {
        return Err(Fault::Header);
    }
    header::put_header(image, replica as u8, table);
    blank_tables(image);
    Ok(())
}
