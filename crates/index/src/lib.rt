// The first fault of an index. The public calls of `zvonurel` ask it first.
#![tactic(auto)]

pub mod check;
