// Kind 3, leave. The leaver's standing, raw balance and pending shares, is one pass over the expenses, which comes only after the refusals
// that need none.
#![tactic(auto, unfolding(rules::specs::Tests::first))]

ghost use Rattle.std.specs.Prelude.{◌≡◌, ◌<◌, ltb, eqb};
ghost use Rattle.format.specs.Layout.{group_count, last_counter};
ghost use Rattle.rules.specs.Tests.{first};
ghost use Rattle.rules.specs.Balance.{paid, held};
ghost use Rattle.rules.specs.Pending.{pending};
ghost use Rattle.rules.specs.Action.{leave};
ghost use Rattle.images.specs.Image.{decode, Checked};
ghost use Rattle.images.specs.Calls.{ruled, done};
ghost use Rattle.leave.specs.Members.{member_checks};
ghost use Rattle.refusals.specs.Numbers.{code};

use layout::Image;
use refusals::Refusal;

// What speaks against a member's leaving, the first that does: a debt, a share that waits for others, a counter at its last.
pub fn refusal(owes: bool, waits: bool, last: bool) -> Result<(), Refusal>
    ensures { code result ≡ first (member_checks owes waits last) }
{
    if owes {
        return Err(Refusal::Owes);
    }
    if waits {
        return Err(Refusal::SharePending);
    }
    if last {
        return Err(Refusal::CounterFull);
    }
    Ok(())
}

// The same of user u of a group, with its rule and u's counter there.
pub fn member_refusal(
    image: &Image,
    rule: u16,
    group: u8,
    u: u8,
    counter: u16,
) -> Result<(), Refusal>
    requires { (u < 8) × (rule ≡ (decode image.now).rule group) }
    ensures { code result ≡ first (member_checks (ltb (paid (decode image.now) group u) (held (decode image.now) group u)) (pending (decode image.now) group u) (eqb counter last_counter)) }
{
    let s = standing::standing_of(image, rule, group, u);
    refusal(s.paid < s.held, s.pending, counter == format::LAST_COUNTER)
}

// Makes a member leave.
pub fn leave_group(image: &mut Image, actor: u8, group: u8) -> Result<(), Refusal>
    requires { (actor < 8) × (group < group_count) × Checked image.old }
    ensures code { code result ≡ ruled image.old (leave actor group) }
    ensures bytes { image.new ≡ done image.old (leave actor group) }
{
    let g = codec::counters_of(image, group);
    if kinds::nobody_in(g.counters) {
        return Err(Refusal::GroupAbsent);
    }
    if !kinds::is_member(g.counters, actor) {
        return Err(Refusal::NotMember);
    }
    let mine = g.counters[actor as usize];
    member_refusal(image, g.rule, group, actor, mine)?;
    store::write_group(
        image,
        group as usize,
        kinds::with_counter(g, actor, mine + 1),
    );
    Ok(())
}
