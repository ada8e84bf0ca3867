// The C boundary: every call of the library as an exported function. Each returns 0 for done, else the row of the refusal.
// Results come last and are written only where said: a buffer, and in `written` the length of the answer, on success; `at` with row 10. A file that is refused a reader
// gives the reader of no bytes.
// The C header calls `written` `length`. Every call but those on wrapped keys, the opening of a label, the making of a vault and a read through a reader is lent the vault as 66
// bytes, which are looked at first: row 1 where they are not 66, then, at the writing and the opening of names, row 18 where their threshold is not from 36 to
// 220, then row 17 where their combo is unknown.
#![tactic(auto, unfolding(crate::specs::Results::result_of, crate::specs::Results::header_result_of, crate::specs::Results::placed_result_of, crate::specs::Results::name_result_of, crate::specs::Results::label_result_of, vault_bytes::specs::VaultBytes::lent_by))]

pub mod chunk;
mod ending;
pub mod file;
pub mod header;
pub mod key;
pub mod labels;
pub mod lengths;
pub mod name;
pub mod reader;
pub mod record;
