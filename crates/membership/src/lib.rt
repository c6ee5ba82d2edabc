// Kinds 1 and 2, on a checked image: found a group, add a member.
#![tactic(auto, unfolding(rules::specs::Tests::first))]

ghost use Rattle.std.specs.Prelude.{◌≡◌, not, [], ◌∷◌, ◌/◌, ◌<◌, eqb};
ghost use Rattle.format.specs.Layout.{group_count, groups_each};
ghost use Rattle.rules.specs.Tests.{first, eight_at};
ghost use Rattle.rules.specs.Action.{found, add};
ghost use Rattle.rules.specs.Refusal.{found_checks, add_checks};
ghost use Rattle.images.specs.Image.{Checked};
ghost use Rattle.images.specs.Calls.{ruled, done};
ghost use Rattle.refusals.specs.Numbers.{code};

use layout::Image;
use refusals::Refusal;

// Kind 1's refusals: a group that another replica owns, or one that is there already.
pub fn found_refusal(group: u8, replica: u8, absent: bool) -> Result<(), Refusal>
    ensures { code result ≡ first ((not (eqb (group / groups_each) replica), 8) ∷ (not absent, 9) ∷ []) }
{
    if group as usize / format::GROUPS_EACH != replica as usize {
        return Err(Refusal::GroupNotOwned);
    }
    if !absent {
        return Err(Refusal::GroupPresent);
    }
    Ok(())
}

// The same of the group's counters, by the rules' own list.
fn may_found(replica: u8, group: u8, counters: [u16; 8]) -> Result<(), Refusal>
    ensures { code result ≡ first (found_checks replica group (eight_at counters)) }
{
    found_refusal(group, replica, kinds::nobody_in(counters))
}

// Founds a group under a rule: the actor becomes its one member.
pub fn found_group(image: &mut Image, actor: u8, group: u8, rule: u16) -> Result<(), Refusal>
    requires { (actor < 8) × (group < group_count) × Checked image.old }
    ensures code { code result ≡ ruled image.old (found actor group rule) }
    ensures bytes { image.new ≡ done image.old (found actor group rule) }
{
    let g = codec::counters_of(image, group);
    may_found(header::replica_of(image), group, g.counters)?;
    store::write_group(image, group as usize, kinds::with_founder(g, actor, rule));
    Ok(())
}

// Kind 2's refusals: an absent group, an actor outside it, another user inside.
pub fn add_refusal(absent: bool, member: bool, already: bool) -> Result<(), Refusal>
    ensures { code result ≡ first ((absent, 10) ∷ (not member, 11) ∷ (already, 12) ∷ []) }
{
    if absent {
        return Err(Refusal::GroupAbsent);
    }
    if !member {
        return Err(Refusal::NotMember);
    }
    if already {
        return Err(Refusal::AlreadyMember);
    }
    Ok(())
}

// The same of the group's counters, by the rules' own list.
fn may_add(counters: [u16; 8], actor: u8, other: u8) -> Result<(), Refusal>
    requires { (actor < 8) × (other < 8) }
    ensures { code result ≡ first (add_checks (eight_at counters) actor other) }
{
    add_refusal(
        kinds::nobody_in(counters),
        kinds::is_member(counters, actor),
        kinds::is_member(counters, other),
    )
}

// Makes another user a member, for the first time or again.
pub fn add_member(image: &mut Image, actor: u8, other: u8, group: u8) -> Result<(), Refusal>
    requires { (actor < 8) × (other < 8) × (group < group_count) × Checked image.old }
    ensures code { code result ≡ ruled image.old (add actor other group) }
    ensures bytes { image.new ≡ done image.old (add actor other group) }
{
    let g = codec::counters_of(image, group);
    may_add(g.counters, actor, other)?;
    let theirs = g.counters[other as usize];
    store::write_group(
        image,
        group as usize,
        kinds::with_counter(g, other, theirs + 1),
    );
    Ok(())
}
