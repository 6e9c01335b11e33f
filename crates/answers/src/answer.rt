// What calls answer beside a row or a number, and the refusals that no check of an index or a body gives.
ghost use Rattle.std.specs.Prelude.{◌≡◌};
ghost use Rattle.answers.specs.Told.{refusal, stray_refusal};
ghost use Rattle.answers.specs.declared.refusal.Fault.TheVariants.{TooLarge, BadArgument, PadBit, NoRoom};

use crate::refusal::{Fault, Refusal};

// How many words were written, at the front of the buffer, and how many stretches the answer was made of.
#[derive(Clone, Copy, PartialEq, Eq, Debug)]
pub struct Report {
    pub words: usize,
    pub stretches: u32,
}

// More rows than a body may have: told at the word of an index that says how many there are.
pub fn too_many_rows() -> Refusal
    ensures { result ≡ refusal TooLarge 1 }
{
    Refusal {
        fault: Fault::TooLarge,
        bitmap: 0,
        word: 1,
    }
}

pub fn bad_argument() -> Refusal
    ensures { result ≡ refusal BadArgument 0 }
{
    Refusal {
        fault: Fault::BadArgument,
        bitmap: 0,
        word: 0,
    }
}

// A plain word that sets a bit which is no row.
pub fn pad_bit(place: u64) -> Refusal
    ensures { result ≡ refusal PadBit place }
{
    Refusal {
        fault: Fault::PadBit,
        bitmap: 0,
        word: place,
    }
}

// Too short a buffer, with the words needed.
pub fn no_room(need: u64) -> Refusal
    ensures { result ≡ refusal NoRoom need }
{
    Refusal {
        fault: Fault::NoRoom,
        bitmap: 0,
        word: need,
    }
}

// A row that a slice, the bitmap of that number, has and that does not exist.
pub fn stray(bitmap: u32, row: u64) -> Refusal
    ensures { result ≡ stray_refusal bitmap row }
{
    Refusal {
        fault: Fault::StrayRow,
        bitmap,
        word: row,
    }
}
