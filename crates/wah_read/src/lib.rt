// Questions on one WAH body that has no fault: row, count, nth. Each goes from word to word.
// Calls here have a `requires`; the public ones of `zvonurel` test their input first.
#![tactic(auto)]

pub mod count;
pub mod nth;
pub mod row;
