// A new index: several bodies written at once, one behind the other, and the head and contents before them.
// Calls here have a `requires`; the public ones of `zvonurel` test their input first.
#![tactic(auto)]

pub mod layout;
pub mod writers;
