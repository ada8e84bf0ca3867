// Where things stand in the bytes of a reader.

// The bytes of a key.
pub const KEY_SIZE: usize = 32;

// Where the combo's number stands, behind the two keys.
pub const COMBO_PLACE: usize = 64;

// The bytes of a reader.
pub const READER_SIZE: usize = 65;
