// Why a call is refused: document 01, "Refusals", each case with the number of the list.
ghost use Rattle.std.specs.Prelude.{◌≡◌};
ghost use Rattle.line.specs.Mode.{is_mode};
ghost use Rattle.line.specs.Refusal.{number, numbered, mode_refusal};

use std::error::Error;
use std::fmt;

// Number 10 is not used again.
#[derive(Clone, Copy, Debug, PartialEq, Eq)]
pub enum Refusal {
    Mode = 1,
    Role = 2,
    TrainingLength = 3,
    State = 4,
    Bit = 5,
    BitCount = 6,
    Lent = 7,
    Coordinate = 8,
    NoIntervals = 9,
    StoreSize = 11,
    StoreHead = 12,
    StoreIndex = 13,
    StoreRecord = 14,
    StoreTotal = 15,
    Intervals = 16,
    StoreFull = 17,
    NotFinite = 18,
    BlockSize = 19,
}

impl Refusal {
    // The number of the list, for callers in C and for a listing.
    pub fn number(self) -> u8
        ensures { result ≡ number self }
    {
        self as u8
    }
}

impl fmt::Display for Refusal {
    fn fmt<W: fmt::Write>(&self, f: &mut fmt::Formatter<W>) -> fmt::Result {
        let number = self.number();
        write!(f, "{number}")
    }
}

impl Error for Refusal {}

// Whether a need is met; what is refused if not.
pub fn need(met: bool, refusal: Refusal) -> Result<(), Refusal>
    ensures { numbered result ≡ Rattle.line.specs.Refusal.need met (number refusal) 0 }
{
    if met { Ok(()) } else { Err(refusal) }
}

// The first of two refusals.
pub fn or_next(a: Result<(), Refusal>, b: Result<(), Refusal>) -> Result<(), Refusal>
    ensures { numbered result ≡ Rattle.line.specs.Refusal.or_next (numbered a) (numbered b) }
{
    a?;
    b
}

// The number of what a call gives, 0 for none: what C gets.
pub fn number_of(answer: Result<(), Refusal>) -> u8
    ensures { result ≡ numbered answer }
{
    match answer {
        Ok(()) => 0,
        Err(refusal) => refusal.number(),
    }
}
