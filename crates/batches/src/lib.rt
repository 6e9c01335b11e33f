// What a writer that takes rows in batches means: its state, in code. What a batch does, and what holds of every
// cutting of the same rows, is in `specs/`.
#![tactic(auto)]

// The writer's state, which its caller keeps: the length of the buffer that it began with, the rows accepted, and the
// words in use at the buffer's front. Every value of the three has a meaning; `specs/Append.antt` says which are refused.
#[repr(C)]
#[derive(Clone, Copy)]
pub struct AppendState {
    pub room: u64,
    pub rows: u64,
    pub words: u64,
}
