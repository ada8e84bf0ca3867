// What SHA-1 and SHA-256 share (FIPS 180-4): functions on words, words and bytes, the padding.
#![tactic(auto)]

pub mod operations;
pub mod padding;
pub mod running;
pub mod words;
