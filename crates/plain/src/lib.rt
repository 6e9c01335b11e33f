// Plain words: their first fault, which is found here since no format knows them; a body written from them, and a body
// that has no fault read into them, 9 where they do not fit.
#![tactic(auto)]

pub mod compress;
pub mod expand;
