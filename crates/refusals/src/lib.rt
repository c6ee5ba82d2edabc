// Why a call refuses. specs/Numbers has the number that stands for each refusal, in an answer to C and in a text; 0 is no refusal.
#![tactic(auto)]

ghost use Rattle.std.specs.Prelude.{◌≡◌};
ghost use Rattle.refusals.specs.declared.Refusal.TheVariants.{Image};
ghost use Rattle.refusals.specs.Numbers.{number, fault_number, code};

// What is wrong with an image, the first that is.
#[derive(Clone, Copy, Debug, PartialEq, Eq, Hash)]
pub enum Fault {
    Length,
    Mark,
    Version,
    Header,
    Expense,
}

// Why a call refuses, in the order of the numbers. The names are those of `include/val.h`.
#[derive(Clone, Copy, Debug, PartialEq, Eq, Hash)]
pub enum Refusal {
    // The caller's own image, and the other one of a merge.
    Image(Fault),
    Other(Fault),
    BadAction,
    NotHome,
    GroupNotOwned,
    GroupPresent,
    GroupAbsent,
    NotMember,
    AlreadyMember,
    Owes,
    CounterFull,
    ExpenseNotOwned,
    ExpensePresent,
    ExpenseAbsent,
    NotPayer,
    BadTotal,
    HasGroup,
    NotInGroup,
    ShareOfNonMember,
    Deleted,
    NoShare,
    AlreadyAcknowledged,
    VersionFull,
    StillMember,
    SameUser,
    HomesDiffer,
    Conflict,
    BadLines,
    GroupEmpty,
    SharePending,
    BadMonth,
}

impl Fault {
    pub fn number(self) -> u32
        ensures { result ≡ fault_number self }
    {
        match self {
            Fault::Length => 1,
            Fault::Mark => 2,
            Fault::Version => 3,
            Fault::Header => 4,
            Fault::Expense => 5,
        }
    }
}

impl Refusal {
    pub fn number(self) -> u32
        ensures { result ≡ number self }
    {
        match self {
            Refusal::Image(fault) => fault.number(),
            Refusal::Other(fault) => 40 + fault.number(),
            Refusal::BadAction => 6,
            Refusal::NotHome => 7,
            Refusal::GroupNotOwned => 8,
            Refusal::GroupPresent => 9,
            Refusal::GroupAbsent => 10,
            Refusal::NotMember => 11,
            Refusal::AlreadyMember => 12,
            Refusal::Owes => 13,
            Refusal::CounterFull => 14,
            Refusal::ExpenseNotOwned => 15,
            Refusal::ExpensePresent => 16,
            Refusal::ExpenseAbsent => 17,
            Refusal::NotPayer => 18,
            Refusal::BadTotal => 19,
            Refusal::HasGroup => 21,
            Refusal::NotInGroup => 22,
            Refusal::ShareOfNonMember => 23,
            Refusal::Deleted => 24,
            Refusal::NoShare => 25,
            Refusal::AlreadyAcknowledged => 26,
            Refusal::VersionFull => 27,
            Refusal::StillMember => 28,
            Refusal::SameUser => 29,
            Refusal::HomesDiffer => 30,
            Refusal::Conflict => 31,
            Refusal::BadLines => 32,
            Refusal::GroupEmpty => 33,
            Refusal::SharePending => 34,
            Refusal::BadMonth => 35,
        }
    }
}

// A fault of the caller's own image refuses a call.
impl From<Fault> for Refusal {
    ghost from_gives = { λ f r. r ≡ Image f };

    fn from(fault: Fault) -> Refusal {
        Refusal::Image(fault)
    }
}

// The answer that C is given: 0 for a call that did what it was asked for, else the refusal's number.
pub fn answer(done: Result<(), Refusal>) -> u32
    ensures { result ≡ code done }
{
    match done {
        Ok(()) => 0,
        Err(refusal) => refusal.number(),
    }
}
