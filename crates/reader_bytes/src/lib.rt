// A kept reader as C callers hold it: the file, which they lend again to each read, and 65 bytes: the content key, the MAC key and the combo's number, or zeros for the
// reader of no bytes.
#![tactic(auto)]

mod layout;
pub mod lent;
pub mod stored;
