// The sums of a group for all eight users over its expenses of some days, in one pass over all of them, four at a time. Four of which none is
// there and in the group cost the look at two bytes of each; only an expense that stands in the group and is of these days is taken apart, and
// only a valid one is added, in place. The pass has one call of `add_expense`, which a compiler puts into the loop; a second caller costs
// every statement time.
#![tactic(auto)]

ghost use Rattle.std.specs.Prelude.{◌≡◌, ◌+◌, ◌≤◌, length};
ghost use Rattle.format.specs.Layout.{expense_size, expense_count};
ghost use Rattle.format.specs.Bytes.{expense_of};
ghost use Rattle.calendar.specs.Calendar.{between};
ghost use Rattle.images.specs.Meaning.{meaning};
ghost use Rattle.rules.specs.Month.{dated};
ghost use Rattle.images.specs.Image.{decode};
ghost use Rattle.balance.specs.Dated.{from_to};
ghost use Rattle.balance.specs.Sums.{together, Room, Added, valid_to, SumsTo, sums_of};

use calendar::Span;
use layout::Image;

// What each user paid and holds in the valid expenses of a group, in how many of these he has a share (counted where the rule asks for it),
// and how many these are.
#[derive(Clone, Copy)]
pub struct Sums {
    pub paid: [u64; 8],
    pub held: [u64; 8],
    pub uses: [u32; 8],
    pub expenses: u32,
}

// One expense is added to the sums of group g where it is of these days and valid in the group by the rule: 1 where it was, else 0.
// The three arrays are apart: in one struct, one of whose arrays is indexed by the payer, a compiler keeps them all in memory (a fifth more for each statement).
pub fn add_expense(
    paid: &mut [u64; 8],
    held: &mut [u64; 8],
    uses: &mut [u32; 8],
    part: &[u8],
    rule: u16,
    g: u8,
    days: Span,
) -> u32
    requires { Room paid.old held.old uses.old × (expense_size ≤ length part.now) }
    ensures { Added rule g (dated (between days.first days.last) (meaning (expense_of part.now))) (together paid.old held.old uses.old 0) (together paid.new held.new uses.new result) }
{
    if !fields::stands_in(part, g) {
        return 0;
    }
    if !validity::is_dated(part, days) {
        return 0;
    }
    let s = codec::read_shares(part);
    let acknowledged = fields::acknowledged_in(part);
    if !validity::all_acknowledged(rule, s, acknowledged) {
        return 0;
    }
    if rule == format::USE_RULE {
        amounts::add_uses(uses, s);
    }
    let total = eight::total_of(s);
    let payer = fields::payer_in(part);
    amounts::add_shares(held, s);
    amounts::add_total(paid, payer, total);
    1
}

// The sums of these days' expenses below `from` become those of four more: how many of the four were added.
pub fn add_four(
    paid: &mut [u64; 8],
    held: &mut [u64; 8],
    uses: &mut [u32; 8],
    image: &Image,
    from: usize,
    rule: u16,
    g: u8,
    days: Span,
) -> u32
    requires { SumsTo (from_to days.first days.last (decode image.now)) rule g from (together paid.old held.old uses.old (valid_to from (from_to days.first days.last (decode image.now)) rule g)) × (from + 4 ≤ expense_count) }
    ensures { SumsTo (from_to days.first days.last (decode image.now)) rule g (from + 4) (together paid.new held.new uses.new (valid_to from (from_to days.first days.last (decode image.now)) rule g + result)) }
{
    let mut added: u32 = 0;
    for c in from..from + 4 {
        added += add_expense(
            paid,
            held,
            uses,
            layout::expense_part(image, c),
            rule,
            g,
            days,
        );
    }
    added
}

// The sums of a group over its expenses of these days alone. Over all its expenses they are those from day 0 to the largest number that a
// day's two bytes can hold, which stands for undated.
pub fn sums_of(image: &Image, rule: u16, g: u8, first: u16, last: u16) -> Sums
    ensures { result ≡ sums_of (from_to first last (decode image.now)) rule g }
{
    let mut paid: [u64; 8] = [0; 8];
    let mut held: [u64; 8] = [0; 8];
    let mut uses: [u32; 8] = [0; 8];
    let mut expenses: u32 = 0;
    for row in 0..format::EXPENSE_COUNT / 4 {
        if rows::four_in(image, 4 * row, g) {
            expenses += add_four(
                &mut paid,
                &mut held,
                &mut uses,
                image,
                4 * row,
                rule,
                g,
                Span { first, last },
            );
        }
    }
    Sums {
        paid,
        held,
        uses,
        expenses,
    }
}
