// Rows that go to the writer of one body, of any width, a piece's rows at a time: whole segments and runs of them go
// on, and a packer has the rows that do not fill a segment yet.
// Calls here have a `requires`; the public ones of `zvonurel` test their input first.
#![tactic(auto)]

mod emit;
pub mod output;
pub mod piece;
