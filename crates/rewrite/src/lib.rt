// Rows that go from segments of one width to those of another: plain words to a body, a body to plain words, and a
// body to one of either format.
// Calls here have a `requires`; the public ones of `zvonurel` test their input first.
#![tactic(auto)]

pub mod body;
pub mod compress;
pub mod expand;
