// Two columns of a sound index, passed over together: the bodies of a new index.
// Calls here have a `requires`; the public ones of `zvonurel` test their input first.
#![tactic(auto)]

pub mod nearest;
pub mod pass;
pub mod spell;
