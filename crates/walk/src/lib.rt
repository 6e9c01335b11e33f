// A list of bitmaps of one index walked together: a cursor for each place, and what all of them stand on.
// Calls here have a `requires`; the public ones of `zvonurel` test their input first.
#![tactic(auto)]

pub mod query;
pub mod survey;
