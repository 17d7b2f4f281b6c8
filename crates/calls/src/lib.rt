// The calls of a stream: what their arguments ask for, and why one is refused.
#![tactic(auto)]

pub mod goal;
pub mod notice;
pub mod refusal;
pub mod sizes;
pub mod words;
