// Questions on one body of either format that has no fault: row, count, nth. Each is the format's own walk.
// Calls here have a `requires`; the public ones of `zvonurel` test their input first.
#![tactic(auto)]

pub mod count;
pub mod nth;
pub mod row;
