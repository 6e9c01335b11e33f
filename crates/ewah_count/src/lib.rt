// How many rows of one EWAH body that has no fault are set, from marker to marker.
// Calls here have a `requires`; the public ones of `zvonurel` test their input first.
#![tactic(auto)]

pub mod count;
