// Why a call is refused: a fault, by its number, with the bitmap and the word that it is found at.
ghost use Rattle.std.specs.Prelude.{◌≡◌};
ghost use Rattle.answers.specs.Told.{number_of};

use std::error::Error;
use std::fmt;

// What can be wrong; the number is the one by which a refusal is told.
#[derive(Clone, Copy, PartialEq, Eq, Debug)]
pub enum Fault {
    CutOff = 1,
    UnknownKind = 2,
    TooLarge = 3,
    WrongContents = 4,
    DirtyPastEnd = 5,
    WrongSegments = 6,
    PadBit = 7,
    BadArgument = 8,
    NoRoom = 9,
    EmptyFill = 10,
    StrayRow = 11,
    Mismatched = 12,
}

// A place is 64 bits wide: a body that stands alone may have more than 2^32 words.
#[derive(Clone, Copy, PartialEq, Eq, Debug)]
pub struct Refusal {
    pub fault: Fault,
    pub bitmap: u32,
    pub word: u64,
}

impl Refusal {
    // The number of its fault.
    pub fn number(self) -> u32
        ensures { result ≡ number_of self.fault }
    {
        self.fault as u32
    }
}

impl fmt::Display for Refusal {
    ghost use Rattle.std.specs.Prelude.{Some};
    ghost use Rattle.answers.specs.Printed.{refusal_text};

    ghost output = { λ r. Some (refusal_text r) };

    fn fmt<W: fmt::Write>(&self, f: &mut fmt::Formatter<W>) -> fmt::Result {
        let number = self.number();
        write!(f, "refused {number} {} {}", self.bitmap, self.word)
    }
}

impl Error for Refusal {}
