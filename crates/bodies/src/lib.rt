// A body of either format: its first fault, and a cursor over its pieces, with one switch where a piece is loaded.
// Calls here have a `requires`; the public ones of `zvonurel` test their input first.
#![tactic(auto)]

pub mod check;
pub mod cursor;
