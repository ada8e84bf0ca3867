// The vault's record, master keys and cipher combo, which every call takes; lengths, headers and chunks by the combo.
#![tactic(auto)]

pub mod chunk;
pub mod header;
pub mod lengths;
pub mod record;
pub mod sizes;
