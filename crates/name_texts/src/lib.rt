// What the calls on names and directory paths are made of: the tests of their rows, SIV under the master keys, and the texts.
#![tactic(auto)]

pub mod checks;
pub mod form;
mod keyed;
pub mod path;
pub mod texts;
