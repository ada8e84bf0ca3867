// RFC 4648: base64url and base32.
#![tactic(auto)]

pub mod alphabet;
pub mod base32;
pub mod base64url;
pub mod broken;
