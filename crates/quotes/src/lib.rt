// Kinds of quotes, each of a fixed width.
#![tactic(auto)]

pub mod basis_points;
pub mod quote;
