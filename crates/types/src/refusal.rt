// Why a call is refused: the table of docs/RULES.md, Refusals, row for row.
ghost use Rattle.std.specs.Prelude.{◌≡◌};
ghost use Rattle.types.specs.Refusals.{number_of};

use std::error::Error;
use std::fmt;

#[derive(Clone, Copy, Debug, PartialEq, Eq)]
pub enum Refusal {
    // A check of lent bytes failed.
    Corrupted,
    // The lowest key is live and longer than the key buffer.
    KeyBufferTooSmall,
    // The lowest key is live and its value is longer than the value buffer.
    ValueBufferTooSmall,
    // A page at or above the count.
    OutOfRange,
    // The flash is not 1 to 256 whole pages.
    BadFlash,
    // The higher header's length is not allowed.
    BadHeader,
    // A number of pages is not allowed.
    BadCount,
    // A record of an edition that came after this one.
    LaterEdition,
    // A store is due and none is left.
    Cut,
    // The run ends are too many, fall, or pass the buffer.
    BadRuns,
    // A state outside its ranges.
    BadState,
}

impl Refusal {
    // The number in the table.
    pub fn number(self) -> u8
        ensures answers { result ≡ number_of self }
    {
        match self {
            Refusal::Corrupted => 1,
            Refusal::KeyBufferTooSmall => 2,
            Refusal::ValueBufferTooSmall => 3,
            Refusal::OutOfRange => 4,
            Refusal::BadFlash => 5,
            Refusal::BadHeader => 6,
            Refusal::BadCount => 7,
            Refusal::LaterEdition => 8,
            Refusal::Cut => 9,
            Refusal::BadRuns => 10,
            Refusal::BadState => 11,
        }
    }
}

// The refusal of what can be refused for one reason alone: a check of lent bytes failed.
#[derive(Clone, Copy, Debug, PartialEq, Eq)]
pub struct Corrupted;

impl From<Corrupted> for Refusal {
    ghost use Rattle.std.specs.Prelude.{◌≡◌};
    ghost use Rattle.types.specs.declared.refusal.Refusal.TheVariants as row;

    ghost from_gives = { λ _ why. why ≡ row.Corrupted };

    fn from(_: Corrupted) -> Refusal {
        Self::Corrupted
    }
}

// What is wrong, as the programs for people say it: the name and the number in the table.
impl fmt::Display for Refusal {
    fn fmt<W: fmt::Write>(&self, f: &mut fmt::Formatter<W>) -> fmt::Result {
        write!(f, "{:?} ({})", *self, self.number())
    }
}

impl Error for Refusal {}
