// What the calls on files are made of: the header; where chunks stand, which cover a range, the lowest whose tag or MAC is wrong; chunk nonces; a range in a
// cleartext.
#![tactic(auto)]

pub mod chunks;
pub mod header;
pub mod nonces;
pub mod range;
