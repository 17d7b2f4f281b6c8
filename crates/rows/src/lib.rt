// Rows of quotes in any stream.
#![tactic(auto)]

pub mod notice;
pub mod refusal;
pub mod rows;
