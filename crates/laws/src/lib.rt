// The laws of `meaning`'s definitions are in `specs/`, and their proofs in `proofs/`; there is no code.
#![tactic(auto)]
