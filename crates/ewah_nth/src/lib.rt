// The nth set row of one EWAH body that has no fault, found from marker to marker.
// Calls here have a `requires`; the public ones of `zvonurel` test their input first.
#![tactic(auto)]

pub mod nth;
