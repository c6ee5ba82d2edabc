// The figures of a group, by value: its totals and a line for each user, in one pass over the expenses.
#![tactic(auto)]

ghost use Rattle.std.specs.Prelude.{◌≡◌, ℕ, ◌≤◌};
ghost use Rattle.rules.specs.Tests.{eight_at};
ghost use Rattle.figures.specs.Figures.{report_from};
ghost use Rattle.images.specs.Calls.{statement_answer};
ghost use Rattle.refusals.specs.Numbers.{code};
ghost use Rattle.figures.specs.Whole.{refused_report, report_in, report_of};

use balance::Sums;
use format::{Line, Totals};
use layout::Image;
use refusals::Refusal;

#[derive(Clone, Copy)]
pub struct Report {
    pub totals: Totals,
    pub lines: [Line; 8],
}

// A group's statement from its rule, its counters and its sums.
pub fn report_from(rule: u16, f: [u16; 8], sums: Sums) -> Report
    requires { (u : ℕ) → (eight_at sums.paid u ≤ 17_592_186_040_320) × (eight_at sums.held u ≤ 2_199_023_255_040) × (eight_at sums.uses u ≤ 512) }
    ensures { result ≡ report_from rule f sums }
{
    let all = parts::gifts_of(f, sums.paid, sums.held);
    let gifts = amounts::total(all);
    let members = parts::members_in(f);
    let weights = amounts::widened(sums.uses);
    let parts = parts::parts_of(rule, f, gifts, weights);
    let lines = lines::lines_of(f, sums.paid, sums.held, all, parts);
    let totals = Totals {
        answer: 0,
        members,
        expenses: sums.expenses,
        gifts,
    };
    Report { totals, lines }
}

// A refusal: every other figure is zero.
pub fn refused(answer: u32) -> Report
    ensures { result ≡ refused_report answer }
{
    let line = Line {
        counter: 0,
        raw: 0,
        gift: 0,
        part: 0,
        balance: 0,
    };
    let totals = Totals {
        answer,
        members: 0,
        expenses: 0,
        gifts: 0,
    };
    Report {
        totals,
        lines: [line; 8],
    }
}

// The statement of any group number of any image, for a caller who lends so many lines; or why it is refused.
pub fn report_of(image: &[u8], group: u64, lent: usize) -> Result<Report, Refusal>
    ensures code { code result ≡ statement_answer image.now group lent }
    ensures report { report_in result ≡ report_of image.now group lent }
{
    image_check::check(image)?;
    let image: &Image = image.as_array().unwrap();
    if format::GROUP_COUNT as u64 <= group {
        return Err(Refusal::GroupAbsent);
    }
    let g = group as u8;
    let r = codec::counters_of(image, g);
    let f = r.counters;
    if kinds::nobody_in(f) {
        return Err(Refusal::GroupAbsent);
    }
    if lent != format::USERS {
        return Err(Refusal::BadLines);
    }
    let sums = balance::sums_of(image, r.rule, g, 0, format::UNDATED);
    Ok(report_from(r.rule, f, sums))
}
