// Single words: the bits of one, and how rows fill words of 32 bits.
#![tactic(auto)]

pub mod bits;
pub mod copies;
pub mod frame;
pub mod rows;
pub mod vectors;
