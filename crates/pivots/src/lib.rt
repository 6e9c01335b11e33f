// A column's next segments as a block, compared with one value, the pivot: which rows come before it and which have it, how many these
// are, and where the last of so many stands. Row 0 of a block says which rows exist, row i + 1 has digit i of their values.
// Calls here have a `requires`; the public ones of `zvonurel` test their input first.
#![tactic(auto)]

pub mod compare;
pub mod count;
pub mod place;
