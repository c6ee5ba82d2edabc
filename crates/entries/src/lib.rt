// Kinds 4 to 7, on a checked image: enter an expense, put it into a group, take it out, change its shares and its day.
#![tactic(auto, unfolding(rules::specs::Tests::first, images::specs::Meaning::meaning_in))]

ghost use Rattle.std.specs.Prelude.{◌≡◌, not, [], ◌∷◌, ◌/◌, ◌<◌, eqb};
ghost use Rattle.format.specs.Layout.{group_count, expense_count, expenses_each, no_expense, no_group, last_version};
ghost use Rattle.rules.specs.Tests.{first, eight_at};
ghost use Rattle.rules.specs.Action.{enter, put_in, take_out, change};
ghost use Rattle.rules.specs.Refusal.{enter_checks, put_in_checks, take_out_checks, change_checks};
ghost use Rattle.images.specs.Meaning.{meaning};
ghost use Rattle.images.specs.Image.{Checked};
ghost use Rattle.images.specs.Calls.{ruled, done};
ghost use Rattle.refusals.specs.Numbers.{code};

use format::ExpenseRecord;
use layout::Image;
use refusals::Refusal;

// Kind 4's refusals, in their order: an expense that another replica owns, one that is there already, a total outside its limits.
pub fn enter_refusal(expense: u16, replica: u8, payer: u8, outside: bool) -> Result<(), Refusal>
    ensures { code result ≡ first ((not (eqb (expense / expenses_each) replica), 15) ∷ (not (eqb payer no_expense), 16) ∷ (outside, 19) ∷ []) }
{
    if expense as usize / format::EXPENSES_EACH != replica as usize {
        return Err(Refusal::ExpenseNotOwned);
    }
    if payer != format::NO_EXPENSE {
        return Err(Refusal::ExpensePresent);
    }
    if outside {
        return Err(Refusal::BadTotal);
    }
    Ok(())
}

// The same of what stands at the expense's number and of its shares, by the rules' own list.
fn may_enter(replica: u8, expense: u16, e: ExpenseRecord, shares: [u32; 8]) -> Result<(), Refusal>
    ensures { code result ≡ first (enter_checks replica expense (meaning e) (eight_at shares)) }
{
    enter_refusal(expense, replica, e.payer, kinds::total_outside(shares))
}

// Enters a new expense that the actor paid.
pub fn enter_expense(
    image: &mut Image,
    actor: u8,
    expense: u16,
    shares: [u32; 8],
    day: u16,
) -> Result<(), Refusal>
    requires { (actor < 8) × (expense < expense_count) × Checked image.old }
    ensures code { code result ≡ ruled image.old (enter actor expense (eight_at shares) day) }
    ensures bytes { image.new ≡ done image.old (enter actor expense (eight_at shares) day) }
{
    let at = expense as usize;
    let e = codec::expense_at(image, at);
    may_enter(header::replica_of(image), expense, e, shares)?;
    let new = ExpenseRecord {
        payer: actor,
        group: format::NO_GROUP,
        deleted: 0,
        acknowledged: kinds::payer_bit(actor, shares),
        version: 0,
        shares,
        day,
    };
    store::write_expense(image, at, new);
    Ok(())
}

// Kind 5's refusals, in their order.
pub fn put_in_refusal(
    absent: bool,
    payer: u8,
    member: bool,
    actor: u8,
    group: u8,
    strange: bool,
    version: u32,
) -> Result<(), Refusal>
    ensures { code result ≡ first ((absent, 10) ∷ (eqb payer no_expense, 17) ∷ (not member, 11) ∷ (not (eqb payer actor), 18) ∷ (not (eqb group no_group), 21) ∷ (strange, 23) ∷ (eqb version last_version, 27) ∷ []) }
{
    if absent {
        return Err(Refusal::GroupAbsent);
    }
    if payer == format::NO_EXPENSE {
        return Err(Refusal::ExpenseAbsent);
    }
    if !member {
        return Err(Refusal::NotMember);
    }
    if payer != actor {
        return Err(Refusal::NotPayer);
    }
    if group != format::NO_GROUP {
        return Err(Refusal::HasGroup);
    }
    if strange {
        return Err(Refusal::ShareOfNonMember);
    }
    if version == format::LAST_VERSION {
        return Err(Refusal::VersionFull);
    }
    Ok(())
}

// The same of an expense and the counters of the group, by the rules' own list.
fn may_put_in(e: ExpenseRecord, counters: [u16; 8], actor: u8) -> Result<(), Refusal>
    requires { actor < 8 }
    ensures { code result ≡ first (put_in_checks (meaning e) (eight_at counters) actor) }
{
    let absent = kinds::nobody_in(counters);
    let member = kinds::is_member(counters, actor);
    let strange = kinds::strangers(counters, e.shares);
    put_in_refusal(absent, e.payer, member, actor, e.group, strange, e.version)
}

// Puts an expense that is in no group into one.
pub fn put_in(image: &mut Image, actor: u8, group: u8, expense: u16) -> Result<(), Refusal>
    requires { (actor < 8) × (group < group_count) × (expense < expense_count) × Checked image.old }
    ensures code { code result ≡ ruled image.old (put_in actor group expense) }
    ensures bytes { image.new ≡ done image.old (put_in actor group expense) }
{
    let at = expense as usize;
    let e = codec::expense_at(image, at);
    let g = codec::counters_of(image, group);
    may_put_in(e, g.counters, actor)?;
    let new = ExpenseRecord {
        group,
        ..kinds::raised(e)
    };
    store::write_expense(image, at, new);
    Ok(())
}

// Kind 6's refusals, in their order.
pub fn take_out_refusal(
    absent: bool,
    payer: u8,
    member: bool,
    has: u8,
    group: u8,
    actor: u8,
    version: u32,
) -> Result<(), Refusal>
    ensures { code result ≡ first ((absent, 10) ∷ (eqb payer no_expense, 17) ∷ (not member, 11) ∷ (not (eqb has group), 22) ∷ (not (eqb payer actor), 18) ∷ (eqb version last_version, 27) ∷ []) }
{
    if absent {
        return Err(Refusal::GroupAbsent);
    }
    if payer == format::NO_EXPENSE {
        return Err(Refusal::ExpenseAbsent);
    }
    if !member {
        return Err(Refusal::NotMember);
    }
    if has != group {
        return Err(Refusal::NotInGroup);
    }
    if payer != actor {
        return Err(Refusal::NotPayer);
    }
    if version == format::LAST_VERSION {
        return Err(Refusal::VersionFull);
    }
    Ok(())
}

// The same of an expense and the counters of the group, by the rules' own list.
fn may_take_out(e: ExpenseRecord, counters: [u16; 8], actor: u8, group: u8) -> Result<(), Refusal>
    requires { actor < 8 }
    ensures { code result ≡ first (take_out_checks (meaning e) (eight_at counters) actor group) }
{
    let absent = kinds::nobody_in(counters);
    let member = kinds::is_member(counters, actor);
    take_out_refusal(absent, e.payer, member, e.group, group, actor, e.version)
}

// Takes an expense out of its group; of the acknowledgements the payer's alone remains.
pub fn take_out(image: &mut Image, actor: u8, group: u8, expense: u16) -> Result<(), Refusal>
    requires { (actor < 8) × (group < group_count) × (expense < expense_count) × Checked image.old }
    ensures code { code result ≡ ruled image.old (take_out actor group expense) }
    ensures bytes { image.new ≡ done image.old (take_out actor group expense) }
{
    let at = expense as usize;
    let e = codec::expense_at(image, at);
    let g = codec::counters_of(image, group);
    may_take_out(e, g.counters, actor, group)?;
    let kept = kinds::payer_bit(actor, e.shares);
    let new = ExpenseRecord {
        group: format::NO_GROUP,
        acknowledged: kept,
        ..kinds::raised(e)
    };
    store::write_expense(image, at, new);
    Ok(())
}

// Kind 7's refusals, in their order.
pub fn change_refusal(
    payer: u8,
    actor: u8,
    outside: bool,
    deleted: u8,
    strange: bool,
    version: u32,
) -> Result<(), Refusal>
    ensures { code result ≡ first ((eqb payer no_expense, 17) ∷ (not (eqb payer actor), 18) ∷ (outside, 19) ∷ (eqb deleted 1, 24) ∷ (strange, 23) ∷ (eqb version last_version, 27) ∷ []) }
{
    if payer == format::NO_EXPENSE {
        return Err(Refusal::ExpenseAbsent);
    }
    if payer != actor {
        return Err(Refusal::NotPayer);
    }
    if outside {
        return Err(Refusal::BadTotal);
    }
    if deleted == 1 {
        return Err(Refusal::Deleted);
    }
    if strange {
        return Err(Refusal::ShareOfNonMember);
    }
    if version == format::LAST_VERSION {
        return Err(Refusal::VersionFull);
    }
    Ok(())
}

// The same of an expense, the counters of the group that it is in, and its new shares, by the rules' own list.
fn may_change(
    e: ExpenseRecord,
    counters: [u16; 8],
    actor: u8,
    shares: [u32; 8],
) -> Result<(), Refusal>
    ensures { code result ≡ first (change_checks (meaning e) (eight_at counters) actor (eight_at shares)) }
{
    let outside = kinds::total_outside(shares);
    let strange = (e.group != format::NO_GROUP) & kinds::strangers(counters, shares);
    change_refusal(e.payer, actor, outside, e.deleted, strange, e.version)
}

// Gives an expense other shares and another day; of the acknowledgements the payer's alone remains.
pub fn change_shares(
    image: &mut Image,
    actor: u8,
    expense: u16,
    shares: [u32; 8],
    day: u16,
) -> Result<(), Refusal>
    requires { (actor < 8) × (expense < expense_count) × Checked image.old }
    ensures code { code result ≡ ruled image.old (change actor expense (eight_at shares) day) }
    ensures bytes { image.new ≡ done image.old (change actor expense (eight_at shares) day) }
{
    let at = expense as usize;
    let e = codec::expense_at(image, at);
    let g = codec::counters_of(image, e.group);
    may_change(e, g.counters, actor, shares)?;
    let own = kinds::payer_bit(actor, shares);
    let new = ExpenseRecord {
        acknowledged: own,
        shares,
        day,
        ..kinds::raised(e)
    };
    store::write_expense(image, at, new);
    Ok(())
}
