// One EWAH body as it is read: its markers, its first fault, its next piece.
// Some calls here have a `requires`; the public ones of `zvonurel` test their input first.
#![tactic(auto)]

pub mod check;
pub mod cursor;
pub mod marker;
