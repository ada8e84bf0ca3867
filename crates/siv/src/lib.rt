// CMAC (SP 800-38B) and SIV (RFC 5297) with AES-256.
#![tactic(auto)]

pub mod cmac;
pub mod s2v;
pub mod seal;
