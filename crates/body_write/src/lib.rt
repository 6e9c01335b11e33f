// Bodies of either format in canonical form as they are written. What is above this crate knows the segments that were
// put, and no draft.
// Calls here have a `requires`; the public ones of `zvonurel` test their input first.
#![tactic(auto)]

pub mod bound;
pub mod sink;
pub mod writer;
