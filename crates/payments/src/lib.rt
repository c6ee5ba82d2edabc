// The list of who pays whom of a group, for any image: the balances of the statement, the table of payments by value, and its copy to lent
// numbers.
#![tactic(auto)]

ghost use Rattle.std.specs.Prelude.{◌≡◌, length};
ghost use Rattle.format.specs.Layout.{payments_size};
ghost use Rattle.refusals.specs.Numbers.{code};
ghost use Rattle.rules.specs.Payments.{row_by_row};
ghost use Rattle.images.specs.Calls.{payments_answer, payments_cents};

use refusals::Refusal;

// The table, written row by row.
fn put_table(cents: &mut [u64], table: [[u64; 8]; 8])
    requires { length cents.old ≡ payments_size }
    ensures { cents.new ≡ row_by_row table }
{
    cents.copy_from_slice(table.as_flattened());
}

// The list of any group number of any image, or why it is refused: as its statement is, another count of numbers than 64, a group with no
// member. A refusal alters no number.
pub fn list_payments(image: &[u8], group: u64, cents: &mut [u64]) -> Result<(), Refusal>
    ensures code { code result ≡ payments_answer image.now group (length cents.old) }
    ensures cents { cents.new ≡ payments_cents image.now group cents.old }
{
    let report = figures::report_of(image, group, format::USERS)?;
    let lent = cents.len();
    if lent != format::PAYMENTS_SIZE {
        return Err(Refusal::BadLines);
    }
    let members = report.totals.members;
    if members == 0 {
        return Err(Refusal::GroupEmpty);
    }
    put_table(cents, settle::settle(lines::balances_of(report.lines)));
    Ok(())
}
