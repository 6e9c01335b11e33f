// Two columns of a sound index, as a new index: what an operation makes of them, measured, laid out and written.
// Calls here have a `requires`; the public ones of `zvonurel` test their input first.
#![tactic(auto)]

pub mod write;
