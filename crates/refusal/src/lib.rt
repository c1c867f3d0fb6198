// The refusals of document 01 by name. specs/Refusal.antt has each number's sentence; a call's contract cites the number there.
#![tactic(auto)]

ghost use Rattle.std.specs.Prelude.{◌≡◌};
ghost use Rattle.refusal.specs.Refusal.{number, refusal_number};

// Why a call refuses, with document 01's number. 15 is retired by order 4.
#[derive(Clone, Copy, Debug, PartialEq, Eq)]
pub enum Refusal {
    FieldSize = 1,
    Range = 2,
    Count = 3,
    Length = 4,
    Index = 5,
    Entry = 6,
    NotReduced = 7,
    TooFew = 8,
    TooMany = 9,
    Numbering = 10,
    Line = 11,
    Listing = 12,
    RowCount = 13,
    Receiver = 14,
    Mismatch = 16,
    Pack = 17,
}

// The number of a refusal.
impl From<Refusal> for u8 {
    ghost from_gives = { λ r n. n ≡ number r };

    fn from(refusal: Refusal) -> u8 {
        refusal as u8
    }
}

impl From<Refusal> for u32 {
    ghost from_gives = { λ r n. n ≡ number r };

    fn from(refusal: Refusal) -> u32 {
        u8::from(refusal).into()
    }
}

// The number of a call's refusal; 0 where it is met.
pub fn number_of(done: Result<(), Refusal>) -> u32
    ensures { result ≡ refusal_number done }
{
    match done {
        Ok(()) => 0,
        Err(refusal) => refusal.into(),
    }
}
