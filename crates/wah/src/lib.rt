// One WAH body as it is read: its words, and its first fault.
// Some calls here have a `requires`; the public ones of `zvonurel` test their input first.
#![tactic(auto)]

pub mod check;
pub mod word;
