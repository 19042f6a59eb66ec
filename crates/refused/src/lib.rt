// Why a call is turned away: the table of paper 01, its numbers and their names.
#![tactic(auto)]

ghost use Rattle.std.specs.Prelude.{◌≡◌, ◌≤◌};
ghost use Rattle.refused.specs.Refusal.{number_of};

// By number: 1 to 17. What was lent is then as it was.
#[derive(Clone, Copy, Debug, PartialEq, Eq)]
pub enum Refusal {
    Short,
    ReservedType,
    LengthField,
    OddTlv,
    NoAnnounce,
    NoPort,
    OwnPort,
    NotAcceptable,
    OwnClock,
    Sequence,
    Steps,
    NinthMaster,
    LongStep,
    OutOfRange,
    Unfit,
    Unsound,
    WrongLine,
}

impl Refusal {
    // The number of the paper's table.
    pub fn number(self) -> u8
        ensures { result ≡ number_of self }
    {
        match self {
            Refusal::Short => 1,
            Refusal::ReservedType => 2,
            Refusal::LengthField => 3,
            Refusal::OddTlv => 4,
            Refusal::NoAnnounce => 5,
            Refusal::NoPort => 6,
            Refusal::OwnPort => 7,
            Refusal::NotAcceptable => 8,
            Refusal::OwnClock => 9,
            Refusal::Sequence => 10,
            Refusal::Steps => 11,
            Refusal::NinthMaster => 12,
            Refusal::LongStep => 13,
            Refusal::OutOfRange => 14,
            Refusal::Unfit => 15,
            Refusal::Unsound => 16,
            Refusal::WrongLine => 17,
        }
    }
}
