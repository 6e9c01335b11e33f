// WAH bodies in canonical form as they are written, segment by segment.
// Calls here have a `requires`; the public ones of `zvonurel` test their input first.
#![tactic(auto)]

pub mod writer;
