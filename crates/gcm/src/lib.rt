// AES-256-GCM (SP 800-38D) with a nonce of 12 bytes and a tag of 16.
#![tactic(auto)]

pub mod aead;
pub mod field;
pub mod ghash;
pub mod key;
pub mod table;
pub mod wide;
