// The part of reading a range that the range read and a kept reader share: what is left once the content key is known, and sizes and range are found right.
#![tactic(auto)]

mod range;
pub mod under;
