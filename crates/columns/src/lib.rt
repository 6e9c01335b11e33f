// What is asked of columns once the check has passed: what is left to be refused, and the answer.
// Calls here have a `requires`; the public ones of `zvonurel` test their input first.
#![tactic(auto)]

pub mod ask;
pub mod pair;
pub mod rank;
