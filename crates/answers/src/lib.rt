// What a check and a question answer, in code: below every format, so that each refuses in the same three numbers.
#![tactic(auto)]

pub mod answer;
pub mod refusal;
