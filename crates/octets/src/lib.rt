// Byte strings in slices, and words of four bytes.
#![tactic(auto)]

pub mod slice;
pub mod word;
