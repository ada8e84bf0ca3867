// The keys that a reader holds.
ghost use Rattle.std.specs.Prelude.{◌≡◌, replicate};
ghost use Rattle.file_reader.specs.Kept.{keys_with, mac_for};

use vault::record::Combo;

/// What chunks are read under: the content key of the file; the MAC master key in SIV_CTRMAC, zeros in SIV_GCM, which does not need it; and the combo. Any
/// value of this type is a reader's keys.
// Kept: zeros for the MAC key in SIV_GCM, since the C interface keeps a reader's keys as 65 bytes, of which 32 are these.
#[derive(Clone, Copy)]
pub struct ReaderKeys {
    pub content: [u8; 32],
    pub mac: [u8; 32],
    pub combo: Combo,
}

// The keys of a file with this content key, under a record with this MAC master key and combo.
pub fn keys_of(content: [u8; 32], mac: [u8; 32], combo: Combo) -> ReaderKeys
    ensures { result ≡ keys_with content (mac_for combo mac) combo }
{
    let mac = match combo {
        Combo::SivGcm => [0u8; 32],
        Combo::SivCtrmac => mac,
    };
    ReaderKeys {
        content,
        mac,
        combo,
    }
}

// The keys beside a refusal.
pub fn no_keys(combo: Combo) -> ReaderKeys
    ensures { result ≡ keys_with (replicate 32 0) (replicate 32 0) combo }
{
    ReaderKeys {
        content: [0u8; 32],
        mac: [0u8; 32],
        combo,
    }
}
