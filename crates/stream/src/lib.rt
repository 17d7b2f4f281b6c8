// What a stream means: the one trait that every stream of a pile keeps.
#![tactic(auto)]

pub mod raw;
