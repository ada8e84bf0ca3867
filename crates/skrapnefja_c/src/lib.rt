// The static library that C and Rust programs link: each call of `skrapnefja` as an exported function, with the same clauses.
#![tactic(auto)]

pub mod chunk;
pub mod file;
pub mod header;
pub mod key;
pub mod labels;
pub mod lengths;
pub mod name;
pub mod reader;
pub mod record;
