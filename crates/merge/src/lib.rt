// Questions over a list of bitmaps of one index, stretch by stretch: what the answer has of each, and its body.
// Calls here have a `requires`; the public ones of `zvonurel` test their input first.
#![tactic(auto)]

pub mod emit;
pub mod engine;
pub mod evaluate;
