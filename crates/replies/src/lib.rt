// What the exported calls return, in structs of numbers, and how an answer becomes one.
#![tactic(auto)]

pub mod reply;
