// AES-256 (FIPS 197): the key schedule and the cipher of a block.
#![tactic(auto)]

pub mod block;
pub mod key;
pub mod rotate;
pub mod round_table;
pub mod sbox;
