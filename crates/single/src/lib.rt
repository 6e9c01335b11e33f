// Questions on one body once its check has passed: what is left to be refused, 8 and 9, and the answer.
#![tactic(auto)]

pub mod body;
