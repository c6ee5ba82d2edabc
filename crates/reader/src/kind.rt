// The kinds of actions, by the number in a record's first byte, and which fields a record of each kind uses.
ghost use Rattle.std.specs.Prelude.{◌≡◌, ◌||◌, leb, eqb};
ghost use Rattle.format.specs.Layout.{current};
ghost use Rattle.images.specs.Record.{rest_fits};
ghost use Rattle.reader.specs.Kind.{kind_number, Decodes};

#[derive(Clone, Copy, Debug, PartialEq, Eq)]
pub enum Kind {
    Found,
    Add,
    Leave,
    Enter,
    PutIn,
    TakeOut,
    Change,
    Delete,
    Acknowledge,
    Absorb,
}

// A number that no kind has.
#[derive(Clone, Copy, Debug, PartialEq, Eq)]
pub struct UnknownKind(pub u8);

impl TryFrom<u8> for Kind {
    type Error = UnknownKind;

    ghost try_from_gives = { Decodes };

    fn try_from(number: u8) -> Result<Self, UnknownKind> {
        match number {
            1 => Ok(Kind::Found),
            2 => Ok(Kind::Add),
            3 => Ok(Kind::Leave),
            4 => Ok(Kind::Enter),
            5 => Ok(Kind::PutIn),
            6 => Ok(Kind::TakeOut),
            7 => Ok(Kind::Change),
            8 => Ok(Kind::Delete),
            9 => Ok(Kind::Acknowledge),
            10 => Ok(Kind::Absorb),
            _ => Err(UnknownKind(number)),
        }
    }
}

impl Kind {
    // A user besides the actor.
    pub(crate) fn names_other(self) -> bool
        ensures { result ≡ (eqb (kind_number self) 2 || eqb (kind_number self) 10) }
    {
        matches!(self, Kind::Add | Kind::Absorb)
    }

    pub(crate) fn names_group(self) -> bool
        ensures { result ≡ (leb (kind_number self) 3 || (eqb (kind_number self) 5 || eqb (kind_number self) 6)) }
    {
        matches!(
            self,
            Kind::Found | Kind::Add | Kind::Leave | Kind::PutIn | Kind::TakeOut
        )
    }

    pub(crate) fn names_expense(self) -> bool
        ensures { result ≡ leb 4 (kind_number self) }
    {
        !matches!(self, Kind::Found | Kind::Add | Kind::Leave)
    }

    pub(crate) fn states_shares(self) -> bool
        ensures { result ≡ (eqb (kind_number self) 4 || eqb (kind_number self) 7) }
    {
        matches!(self, Kind::Enter | Kind::Change)
    }

    // Bytes 6 and 7: a founding's rule, the day of an expense entered or changed, else zero.
    pub(crate) fn rest_fits(self, rest: u16) -> bool
        ensures { result ≡ rest_fits current (kind_number self) rest }
    {
        match self {
            Kind::Found => (rest == format::EQUAL_RULE) | (rest == format::USE_RULE),
            Kind::Enter | Kind::Change => rest <= format::LAST_DAY,
            _ => rest == 0,
        }
    }
}
