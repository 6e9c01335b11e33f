// One EWAH body that has no fault, asked for a row, and read into plain words. Each goes from marker to marker.
// Calls here have a `requires`; the public ones of `zvonurel` test their input first.
#![tactic(auto)]

pub mod expand;
pub mod row;
