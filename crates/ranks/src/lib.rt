// The k largest or smallest rows of a column of a sound index, as a body. The k-th value, the pivot, is found digit by digit, with a
// counting pass for each; then the row where its rows are cut; and then the body is measured and written. No pass keeps what it read.
// Calls here have a `requires`; the public ones of `zvonurel` test their input first.
#![tactic(auto)]

mod pass;
mod pivot;
mod scan;
pub mod write;
