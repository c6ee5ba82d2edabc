// The sums of all sixteen groups in one pass over the expenses of a checked image: each expense is looked at once, at the group that it names, and
// its shares are added to the row of that group and of its payer. What each paid and holds is worked out of a group's eight rows afterwards, so that
// no expense is added up by itself.
#![tactic(auto)]

ghost use Rattle.std.specs.Prelude.{◌≡◌, true, ℕ, ◌+◌, ◌≤◌, ◌<◌, length};
ghost use Rattle.format.specs.Layout.{user_count, group_count, expense_size, expense_count};
ghost use Rattle.format.specs.Bytes.{expense_of};
ghost use Rattle.images.specs.Meaning.{meaning};
ghost use Rattle.images.specs.Image.{decode, image_check};
ghost use Rattle.fields.specs.Fields.{stands_in};
ghost use Rattle.rules.specs.Tests.{number};
ghost use Rattle.amounts.specs.Amounts.{UpTo};
ghost use Rattle.gather.specs.Rows.{Halved, RowsTo, no_rows, whole_at, sums_from};

use balance::Sums;
use layout::Image;

// For each group and payer a row of what each user holds in what that payer paid, in halves of sixteen bits: payer p's of group g is row 8 * g + p.
// And for each group its uses and how many of its expenses are valid.
#[derive(Clone, Copy)]
pub struct Rows {
    pub low: [[u32; 8]; 128],
    pub high: [[u32; 8]; 128],
    pub uses: [[u32; 8]; 16],
    pub counts: [u32; 16],
}

// One expense that stands in the group it names is added to its payer's row and to the group's uses where all its shares count as acknowledged by
// the rule: whether it was. The steps are those of `balance::add_expense`: a compiler puts each into the one loop that calls it, and one
// function for both would be a call at every expense of a statement.
pub fn add_standing(
    low: &mut [u32; 8],
    high: &mut [u32; 8],
    uses: &mut [u32; 8],
    part: &[u8],
    rule: u16,
) -> bool
    requires { UpTo 33_554_432 low.old × UpTo 33_554_432 high.old × UpTo 512 uses.old × (expense_size ≤ length part.now) × (stands_in (expense_of part.now) (expense_of part.now).group ≡ true) }
    ensures { Halved rule (expense_of part.now).group (meaning (expense_of part.now)) low.old high.old uses.old low.new high.new uses.new (number result) }
{
    let s = codec::read_shares(part);
    let acknowledged = fields::acknowledged_in(part);
    if !validity::all_acknowledged(rule, s, acknowledged) {
        return false;
    }
    if rule == format::USE_RULE {
        amounts::add_uses(uses, s);
    }
    halves::add_low(low, s);
    halves::add_high(high, s);
    true
}

impl Rows {
    // The rows of no expense.
    pub fn new() -> Rows
        ensures { result ≡ no_rows }
    {
        Rows {
            low: [[0; 8]; 128],
            high: [[0; 8]; 128],
            uses: [[0; 8]; 16],
            counts: [0; 16],
        }
    }

    // One expense, by its number. A payer who is no user is no expense.
    pub fn add_named(&mut self, image: &Image, c: usize)
        requires { RowsTo (decode image.now) c self.old × (c < expense_count) × (image_check image.now ≡ 0) }
        ensures { RowsTo (decode image.now) (c + 1) self.new }
    {
        let part = layout::expense_part(image, c);
        let payer = fields::payer_in(part) as usize;
        if format::USERS <= payer {
            return;
        }
        let named = fields::group_in(part);
        if !fields::stands_in(part, named) {
            return;
        }
        let g = named as usize;
        if g < format::GROUP_COUNT {
            let r = 8 * g + payer;
            let rule = codec::rule_at(image, g);
            let added = add_standing(
                &mut self.low[r],
                &mut self.high[r],
                &mut self.uses[g],
                part,
                rule,
            );
            self.counts[g] += u32::from(added);
        }
    }

    // The eight expenses from a number on.
    pub fn add_eight(&mut self, image: &Image, from: usize)
        requires { RowsTo (decode image.now) from self.old × (from + 8 ≤ expense_count) × (image_check image.now ≡ 0) }
        ensures { RowsTo (decode image.now) (from + 8) self.new }
    {
        for c in from..from + 8 {
            self.add_named(image, c);
        }
    }

    // All expenses of an image, to the rows of none. Eight numbers without an expense cost one look at each.
    pub fn add_all(&mut self, image: &Image)
        requires { RowsTo (decode image.now) 0 self.old × (image_check image.now ≡ 0) }
        ensures { RowsTo (decode image.now) expense_count self.new }
    {
        for eight in 0..format::EXPENSE_COUNT / 8 {
            if !rows::none_of_eight(image, 8 * eight) {
                self.add_eight(image, 8 * eight);
            }
        }
    }

    // The sums of one group, out of its eight rows.
    pub fn sums_at(&self, g: usize) -> Sums
        requires { (g < group_count) × ((p u : ℕ) → p < user_count → whole_at self.now g p u ≤ 2_199_023_255_040) }
        ensures { result ≡ sums_from self.now g }
    {
        let mut paid = [0; 8];
        let mut held = [0; 8];
        for p in 0..format::USERS {
            let row = halves::whole_of(self.low[8 * g + p], self.high[8 * g + p]);
            paid[p] = amounts::total(row);
            halves::add_amounts(&mut held, row);
        }
        Sums {
            paid,
            held,
            uses: self.uses[g],
            expenses: self.counts[g],
        }
    }
}
