// EWAH bodies in canonical form as they are written: segment by segment, and from plain words.
// Calls here have a `requires`; the public ones of `zvonurel` test their input first.
#![tactic(auto)]

pub mod compress;
pub mod dirty;
pub mod writer;
