// An action record taken apart.
#![tactic(auto)]

ghost use Rattle.std.specs.Prelude.{◌≡◌, ◌<◌, List, ℕ, length};
ghost use Rattle.format.specs.Layout.{current, action_size};
ghost use Rattle.format.specs.Bytes.{byte, u16_at};
ghost use Rattle.rules.specs.Tests.{eight_at};
ghost use Rattle.images.specs.Record.{field, rest_fits, fields_fit_in, kinds, read_action};
ghost use Rattle.reader.specs.Kind.{kind_number};
ghost use Rattle.reader.specs.Reading.{deed_meaning, reading_meaning, reading_in, deed_of, kind_of, reading_of};

mod kind;

use kind::Kind;

// What a record asks for, and who asks. The shares that Enter and Change state stand beside the action.
#[derive(Clone, Copy, Debug, PartialEq, Eq)]
pub struct Action {
    pub actor: u8,
    pub deed: Deed,
}

#[derive(Clone, Copy, Debug, PartialEq, Eq)]
pub enum Deed {
    Found { group: u8, rule: u16 },
    Add { other: u8, group: u8 },
    Leave { group: u8 },
    Enter { expense: u16, day: u16 },
    PutIn { group: u8, expense: u16 },
    TakeOut { group: u8, expense: u16 },
    Change { expense: u16, day: u16 },
    Delete { expense: u16 },
    Acknowledge { expense: u16 },
    Absorb { other: u8, expense: u16 },
}

// The fields of a record that every kind has; `rest` is bytes 6 and 7.
#[derive(Clone, Copy)]
struct Fields {
    kind: Kind,
    actor: u8,
    other: u8,
    group: u8,
    expense: u16,
    rest: u16,
}

// No action where length, kind or a field is wrong.
#[derive(Clone, Copy)]
pub struct ActionRead {
    pub action: Option<Action>,
    pub shares: [u32; 8],
}

pub fn field_fits(used: bool, n: u16, bound: u16) -> bool
    ensures { result ≡ field used n bound }
{
    if used { n < bound } else { n == 0 }
}

impl Fields {
    fn fit(self, unshared: bool) -> bool
        ensures { result ≡ fields_fit_in current (kind_number self.kind) self.actor self.other self.group self.expense self.rest unshared }
    {
        let other_fits = field_fits(self.kind.names_other(), self.other as u16, 8);
        let group_fits = field_fits(self.kind.names_group(), self.group as u16, 16);
        let expense_fits = field_fits(self.kind.names_expense(), self.expense, 512);
        let rest_fits = self.kind.rest_fits(self.rest);
        let shares_fit = self.kind.states_shares() | unshared;
        eight::all([
            self.actor < 8,
            other_fits,
            group_fits,
            expense_fits,
            rest_fits,
            shares_fit,
        ])
    }

    fn deed(self) -> Deed
        ensures variant { result ≡ deed_of (kind_number self.kind) self.other self.group self.expense self.rest }
        ensures meaning { (s : List ℕ) → deed_meaning self.actor result s ≡ kinds (kind_number self.kind) self.actor self.other self.group self.expense self.rest self.rest (eight_at s) }
    {
        let Fields {
            kind,
            other,
            group,
            expense,
            rest,
            ..
        } = self;
        match kind {
            Kind::Found => Deed::Found { group, rule: rest },
            Kind::Add => Deed::Add { other, group },
            Kind::Leave => Deed::Leave { group },
            Kind::Enter => Deed::Enter { expense, day: rest },
            Kind::PutIn => Deed::PutIn { group, expense },
            Kind::TakeOut => Deed::TakeOut { group, expense },
            Kind::Change => Deed::Change { expense, day: rest },
            Kind::Delete => Deed::Delete { expense },
            Kind::Acknowledge => Deed::Acknowledge { expense },
            Kind::Absorb => Deed::Absorb { other, expense },
        }
    }
}

// Bytes 6 and 7 by the kind's number: of a number that no kind has they are zero.
pub fn rest_fits(kind: u8, rest: u16) -> bool
    ensures { result ≡ rest_fits current kind rest }
{
    match Kind::try_from(kind) {
        Ok(kind) => kind.rest_fits(rest),
        Err(_) => rest == 0,
    }
}

pub fn fields_fit(
    kind: u8,
    actor: u8,
    other: u8,
    group: u8,
    expense: u16,
    rest: u16,
    unshared: bool,
) -> bool
    ensures { result ≡ fields_fit_in current kind actor other group expense rest unshared }
{
    let Ok(kind) = Kind::try_from(kind) else {
        return false;
    };
    let fields = Fields {
        kind,
        actor,
        other,
        group,
        expense,
        rest,
    };
    fields.fit(unshared)
}

// The action of a kind's number. A number that no kind has is taken as the last kind's.
pub fn kind_of(kind: u8, actor: u8, other: u8, group: u8, expense: u16, rest: u16) -> Action
    ensures { result ≡ kind_of kind actor other group expense rest }
{
    let kind = Kind::try_from(kind).unwrap_or(Kind::Absorb);
    let fields = Fields {
        kind,
        actor,
        other,
        group,
        expense,
        rest,
    };
    Action {
        actor,
        deed: fields.deed(),
    }
}

pub fn reading_of(
    kind: u8,
    actor: u8,
    other: u8,
    group: u8,
    expense: u16,
    rest: u16,
    unshared: bool,
) -> Option<Action>
    ensures { result ≡ reading_of kind actor other group expense rest unshared }
{
    let Ok(kind) = Kind::try_from(kind) else {
        return None;
    };
    let fields = Fields {
        kind,
        actor,
        other,
        group,
        expense,
        rest,
    };
    if !fields.fit(unshared) {
        return None;
    }
    Some(Action {
        actor,
        deed: fields.deed(),
    })
}

// The action of a record of the right length.
fn action_in(bytes: &[u8], unshared: bool) -> Option<Action>
    requires { length bytes.now ≡ action_size }
    ensures { (s : List ℕ) → reading_meaning result s ≡ reading_in bytes.now unshared (eight_at s) }
{
    reading_of(
        bytes[format::KIND_AT],
        bytes[format::ACTOR_AT],
        bytes[format::OTHER_AT],
        bytes[format::GROUP_NUMBER_AT],
        numbers::read_u16(bytes, format::EXPENSE_NUMBER_AT),
        numbers::read_u16(bytes, format::REST_AT),
        unshared,
    )
}

pub fn read_action(bytes: &[u8]) -> ActionRead
    ensures { (reading_meaning result.action result.shares ≡ read_action bytes.now) × (length result.shares ≡ 8) }
{
    if bytes.len() != format::ACTION_SIZE {
        return ActionRead {
            action: None,
            shares: [0; 8],
        };
    }
    let shares = codec::read_shares(bytes);
    let action = action_in(bytes, eight::shares_zero(shares));
    ActionRead { action, shares }
}
