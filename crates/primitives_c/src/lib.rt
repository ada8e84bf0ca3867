// The building blocks as exported functions, with the same clauses, for the comparisons with the second program.
#![tactic(auto)]

pub mod authenticated;
pub mod cipher;
pub mod counter;
pub mod deterministic;
pub mod hash;
pub mod text;
