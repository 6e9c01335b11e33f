// The next segments of every place of a list as a block: how many, whether as a run, and their words.
// Calls here have a `requires`; the public ones of `zvonurel` test their input first.
#![tactic(auto)]

pub mod choose;
pub mod next;
