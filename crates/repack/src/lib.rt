// Rows packed anew into segments of another width.
#![tactic(auto)]

pub mod fill;
pub mod packer;
pub mod plain;
