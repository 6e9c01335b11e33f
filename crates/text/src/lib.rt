// A threshold answer as text, for the program `threshold`: its lines, and the listing of a body's set rows, chunk by chunk.
// Calls here have a `requires`, which the program meets.
#![tactic(auto)]

pub mod lines;
pub mod listing;
