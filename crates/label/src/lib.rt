// The vault's label, vault.cryptomator: three segments, a header and a payload in JSON, and a signature.
#![tactic(auto)]

mod members;
pub mod open;
mod segments;
mod signature;
mod texts;
