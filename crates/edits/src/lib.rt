// Kinds 8 to 10, on a checked image: delete an expense, acknowledge a share, absorb another's share.
#![tactic(auto, unfolding(rules::specs::Tests::first, images::specs::Meaning::meaning_in))]

ghost use Rattle.std.specs.Prelude.{◌≡◌, true, not, [], ◌∷◌, ◌+◌, ◌<◌, eqb};
ghost use Rattle.format.specs.Layout.{expense_count, no_expense, no_group, last_version};
ghost use Rattle.rules.specs.Tests.{first, eight_at, eight_of};
ghost use Rattle.rules.specs.Ledger.{member_in};
ghost use Rattle.rules.specs.Action.{delete, acknowledge, absorb};
ghost use Rattle.rules.specs.Refusal.{delete_checks, acknowledge_checks, absorb_checks};
ghost use Rattle.rules.specs.Step.{moved};
ghost use Rattle.images.specs.Meaning.{meaning};
ghost use Rattle.images.specs.Image.{Checked};
ghost use Rattle.images.specs.Calls.{ruled, done};
ghost use Rattle.refusals.specs.Numbers.{code};

use format::ExpenseRecord;
use layout::Image;
use refusals::Refusal;

// Kind 8's refusals, in their order.
pub fn delete_refusal(
    payer: u8,
    actor: u8,
    deleted: u8,
    barred: bool,
    version: u32,
) -> Result<(), Refusal>
    ensures { code result ≡ first ((eqb payer no_expense, 17) ∷ (not (eqb payer actor), 18) ∷ (eqb deleted 1, 24) ∷ (barred, 11) ∷ (eqb version last_version, 27) ∷ []) }
{
    if payer == format::NO_EXPENSE {
        return Err(Refusal::ExpenseAbsent);
    }
    if payer != actor {
        return Err(Refusal::NotPayer);
    }
    if deleted == 1 {
        return Err(Refusal::Deleted);
    }
    if barred {
        return Err(Refusal::NotMember);
    }
    if version == format::LAST_VERSION {
        return Err(Refusal::VersionFull);
    }
    Ok(())
}

// The same of an expense and the counters of the group that it is in, by the rules' own list.
fn may_delete(e: ExpenseRecord, counters: [u16; 8], actor: u8) -> Result<(), Refusal>
    requires { actor < 8 }
    ensures { code result ≡ first (delete_checks (meaning e) (eight_at counters) actor) }
{
    let barred = (e.group != format::NO_GROUP) & !kinds::is_member(counters, actor);
    delete_refusal(e.payer, actor, e.deleted, barred, e.version)
}

// Marks an expense as deleted.
pub fn delete_expense(image: &mut Image, actor: u8, expense: u16) -> Result<(), Refusal>
    requires { (actor < 8) × (expense < expense_count) × Checked image.old }
    ensures code { code result ≡ ruled image.old (delete actor expense) }
    ensures bytes { image.new ≡ done image.old (delete actor expense) }
{
    let at = expense as usize;
    let e = codec::expense_at(image, at);
    let g = codec::counters_of(image, e.group);
    may_delete(e, g.counters, actor)?;
    let new = ExpenseRecord {
        deleted: 1,
        ..kinds::raised(e)
    };
    store::write_expense(image, at, new);
    Ok(())
}

// Kind 9's refusals, in their order.
pub fn acknowledge_refusal(
    payer: u8,
    deleted: u8,
    group: u8,
    member: bool,
    share: u32,
    already: bool,
) -> Result<(), Refusal>
    ensures { code result ≡ first ((eqb payer no_expense, 17) ∷ (eqb deleted 1, 24) ∷ (eqb group no_group, 22) ∷ (not member, 11) ∷ (eqb share 0, 25) ∷ (already, 26) ∷ []) }
{
    if payer == format::NO_EXPENSE {
        return Err(Refusal::ExpenseAbsent);
    }
    if deleted == 1 {
        return Err(Refusal::Deleted);
    }
    if group == format::NO_GROUP {
        return Err(Refusal::NotInGroup);
    }
    if !member {
        return Err(Refusal::NotMember);
    }
    if share == 0 {
        return Err(Refusal::NoShare);
    }
    if already {
        return Err(Refusal::AlreadyAcknowledged);
    }
    Ok(())
}

// The same of an expense and the counters of the group that it is in, by the rules' own list.
fn may_acknowledge(e: ExpenseRecord, counters: [u16; 8], actor: u8) -> Result<(), Refusal>
    requires { actor < 8 }
    ensures { code result ≡ first (acknowledge_checks (meaning e) (eight_at counters) actor) }
{
    let member = kinds::is_member(counters, actor);
    let share = e.shares[actor as usize];
    let already = sets::has_bit(e.acknowledged, actor);
    acknowledge_refusal(e.payer, e.deleted, e.group, member, share, already)
}

// Acknowledges the actor's share.
pub fn acknowledge(image: &mut Image, actor: u8, expense: u16) -> Result<(), Refusal>
    requires { (actor < 8) × (expense < expense_count) × Checked image.old }
    ensures code { code result ≡ ruled image.old (acknowledge actor expense) }
    ensures bytes { image.new ≡ done image.old (acknowledge actor expense) }
{
    let at = expense as usize;
    let e = codec::expense_at(image, at);
    let g = codec::counters_of(image, e.group);
    may_acknowledge(e, g.counters, actor)?;
    let new = ExpenseRecord {
        acknowledged: sets::with_bit(e.acknowledged, actor),
        ..e
    };
    store::write_expense(image, at, new);
    Ok(())
}

// Kind 10's refusals that look at the group, and that of a last version, which stands behind them. Whether the other was ever a member is
// not asked: who has a share in a group was.
pub fn absorb_group_refusal(
    group: u8,
    member: bool,
    inside: bool,
    version: u32,
) -> Result<(), Refusal>
    ensures { code result ≡ first ((eqb group no_group, 22) ∷ (not member, 11) ∷ (inside, 28) ∷ (eqb version last_version, 27) ∷ []) }
{
    if group == format::NO_GROUP {
        return Err(Refusal::NotInGroup);
    }
    if !member {
        return Err(Refusal::NotMember);
    }
    if inside {
        return Err(Refusal::StillMember);
    }
    if version == format::LAST_VERSION {
        return Err(Refusal::VersionFull);
    }
    Ok(())
}

// The same of an expense and the counters of the group that it is in.
fn may_absorb_in_group(
    e: ExpenseRecord,
    counters: [u16; 8],
    actor: u8,
    other: u8,
) -> Result<(), Refusal>
    requires { (actor < 8) × (other < 8) }
    ensures { code result ≡ first ((eqb e.group no_group, 22) ∷ (not (member_in (eight_at counters) actor), 11) ∷ (member_in (eight_at counters) other, 28) ∷ (eqb e.version last_version, 27) ∷ []) }
{
    let member = kinds::is_member(counters, actor);
    let inside = kinds::is_member(counters, other);
    absorb_group_refusal(e.group, member, inside, e.version)
}

// Kind 10's refusals, in their order; `rest` is what those that look at the group answer.
pub fn absorb_refusal(
    other: u8,
    actor: u8,
    payer: u8,
    deleted: u8,
    share: u32,
    already: bool,
    rest: Result<(), Refusal>,
) -> Result<(), Refusal>
    ensures { code result ≡ first ((eqb other actor, 29) ∷ (eqb payer no_expense, 17) ∷ (eqb deleted 1, 24) ∷ (not (eqb payer actor), 18) ∷ (eqb share 0, 25) ∷ (already, 26) ∷ (true, code rest) ∷ []) }
{
    if other == actor {
        return Err(Refusal::SameUser);
    }
    if payer == format::NO_EXPENSE {
        return Err(Refusal::ExpenseAbsent);
    }
    if deleted == 1 {
        return Err(Refusal::Deleted);
    }
    if payer != actor {
        return Err(Refusal::NotPayer);
    }
    if share == 0 {
        return Err(Refusal::NoShare);
    }
    if already {
        Err(Refusal::AlreadyAcknowledged)
    } else {
        rest
    }
}

// The same of an expense and the counters of the group that it is in, by the rules' own list.
fn may_absorb(e: ExpenseRecord, counters: [u16; 8], actor: u8, other: u8) -> Result<(), Refusal>
    requires { (actor < 8) × (other < 8) }
    ensures { code result ≡ first (absorb_checks (meaning e) (eight_at counters) actor other) }
{
    let rest = may_absorb_in_group(e, counters, actor, other);
    let share = e.shares[other as usize];
    let already = sets::has_bit(e.acknowledged, other);
    absorb_refusal(other, actor, e.payer, e.deleted, share, already, rest)
}

// Shares with one user's moved to another.
pub fn moved_shares(s: [u32; 8], to: u8, from: u8) -> [u32; 8]
    requires { (to < 8) × (from < 8) × (eight_at s to + eight_at s from < 4_294_967_296) }
    ensures { result ≡ eight_of (moved to from (eight_at s)) }
{
    let mut new = s;
    new[from as usize] = 0;
    new[to as usize] = s[to as usize] + s[from as usize];
    new
}

// Moves the share of another user, who left the group, to the payer.
pub fn absorb_share(image: &mut Image, actor: u8, other: u8, expense: u16) -> Result<(), Refusal>
    requires { (actor < 8) × (other < 8) × (expense < expense_count) × Checked image.old }
    ensures code { code result ≡ ruled image.old (absorb actor other expense) }
    ensures bytes { image.new ≡ done image.old (absorb actor other expense) }
{
    let at = expense as usize;
    let e = codec::expense_at(image, at);
    let g = codec::counters_of(image, e.group);
    may_absorb(e, g.counters, actor, other)?;
    let shares = moved_shares(e.shares, actor, other);
    let new = ExpenseRecord {
        shares,
        ..kinds::raised(e)
    };
    store::write_expense(image, at, new);
    Ok(())
}
