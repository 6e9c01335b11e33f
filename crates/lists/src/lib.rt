// Questions over a list of bitmaps of a sound index: what is left to be refused, 8 and 9, and the answer.
#![tactic(auto)]

pub mod ask;
