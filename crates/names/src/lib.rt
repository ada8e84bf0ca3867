// The calls on names and directory paths, under the vault's record, whose combo they do not depend on; those on names go by its threshold.
// Each takes any bytes, and a refusal changes none.
#![tactic(auto)]

mod head;
pub mod opener;
pub mod path;
pub mod writer;
