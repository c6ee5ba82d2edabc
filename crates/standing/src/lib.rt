// One user's standing in a group: what the user paid and holds in its valid expenses, and whether one of its expenses is pending for the
// user. One pass over the expenses, four at one look, by value. An expense of the group that the user neither pays nor has a share in costs
// no more than to see that.
#![tactic(auto)]

ghost use Rattle.std.specs.Prelude.{◌≡◌, true, ◌+◌, ◌≤◌, ◌<◌, length};
ghost use Rattle.format.specs.Layout.{expense_size, expense_count};
ghost use Rattle.format.specs.Bytes.{expense_of};
ghost use Rattle.images.specs.Meaning.{meaning};
ghost use Rattle.images.specs.Image.{decode};
ghost use Rattle.fields.specs.Fields.{stands_in};
ghost use Rattle.standing.specs.Standing.{Room, more, standing_to, standing_of};

use layout::Image;

#[derive(Clone, Copy)]
pub struct Standing {
    pub paid: u64,
    pub held: u64,
    pub pending: bool,
}

// The standing with an expense more that stands in group g.
pub fn with_standing(s: Standing, part: &[u8], rule: u16, g: u8, u: u8) -> Standing
    requires { (u < 8) × Room s × (stands_in (expense_of part.now) g ≡ true) × (expense_size ≤ length part.now) }
    ensures { result ≡ more rule g u (meaning (expense_of part.now)) s }
{
    let share = fields::share_of(part, u);
    let payer = fields::payer_in(part);
    if (share == 0) & (payer != u) {
        return s;
    }
    let small = validity::small_share(rule);
    let acknowledged = fields::acknowledged_in(part);
    let shares = codec::read_shares(part);
    if !validity::acknowledged_above(shares, small, acknowledged) {
        let counts = sets::has_bit(acknowledged, u) | (share <= small);
        if (share != 0) & counts {
            return Standing { pending: true, ..s };
        }
        return s;
    }
    let held = s.held + share as u64;
    if payer != u {
        return Standing { held, ..s };
    }
    let paid = s.paid + fields::total_in(part);
    Standing { paid, held, ..s }
}

// The standing over the expenses below `from` becomes that over four more.
pub fn with_four(start: Standing, image: &Image, from: usize, rule: u16, g: u8, u: u8) -> Standing
    requires { (u < 8) × (start ≡ standing_to from (decode image.now) rule g u) × (from + 4 ≤ expense_count) }
    ensures { result ≡ standing_to (from + 4) (decode image.now) rule g u }
{
    let mut s = start;
    for c in from..from + 4 {
        let part = layout::expense_part(image, c);
        if fields::stands_in(part, g) {
            s = with_standing(s, part, rule, g, u);
        }
    }
    s
}

pub fn standing_of(image: &Image, rule: u16, g: u8, u: u8) -> Standing
    requires { u < 8 }
    ensures { result ≡ standing_of (decode image.now) rule g u }
{
    let mut s = Standing {
        paid: 0,
        held: 0,
        pending: false,
    };
    for row in 0..format::EXPENSE_COUNT / 4 {
        if rows::four_in(image, 4 * row, g) {
            s = with_four(s, image, 4 * row, rule, g, u);
        }
    }
    s
}
