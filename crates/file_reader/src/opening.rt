// The making of a reader: the header is opened, and the content key kept.
ghost use Rattle.std.specs.Prelude.{◌≡◌, replicate};
ghost use Rattle.answer.specs.Meaning.{row, meaning};
ghost use Rattle.file_reader.specs.Kept.{keys_with, file_by, open_kept};

use crate::keys::{ReaderKeys, keys_of, no_keys};
use aes::round_table::RoundTable;
use answer::Refusal;
use file_parts::header::open_head;
use vault::lengths::{clear_length, right_length};
use vault::record::{Combo, Vault};

/// What the making of a reader answers, and the keys that the reader holds.
// Kept: a pair, since beside a refusal too there are keys, of zeros, by which `read_twice` reads (its theorem `reads_as_range` says by row 4).
#[derive(Clone, Copy)]
pub struct Opening {
    pub answer: Result<usize, Refusal>,
    pub keys: ReaderKeys,
}

// A refusal of the making.
fn refuse(refusal: Refusal, combo: Combo) -> Opening
    ensures { (meaning result.answer ≡ row refusal) × (result.keys ≡ keys_with (replicate 32 0) (replicate 32 0) combo) }
{
    Opening {
        answer: Err(refusal),
        keys: no_keys(combo),
    }
}

/// Opens the header of a file for a reader. Rows 4, 9.
pub fn open_keys(v: Vault, file: &[u8]) -> Opening
    ensures { (meaning result.answer ≡ (open_kept v file.now).outcome) × (result.keys ≡ (open_kept v file.now).keys) }
{
    let combo = v.combo;
    if !right_length(combo, file.len()) {
        return refuse(Refusal::Length, combo);
    }
    let t = RoundTable::new();
    let Some(payload) = open_head(combo, &t, &v.enc, &v.mac, file) else {
        return refuse(Refusal::Header, combo);
    };
    let mut content = [0u8; 32];
    content.copy_from_slice(&payload[8..]);
    Opening {
        answer: Ok(clear_length(combo, file.len())),
        keys: keys_of(content, v.mac, combo),
    }
}

/// What a reader holds of a file: all of it, or nothing where the making is refused.
pub fn held(answer: Result<usize, Refusal>, file: &[u8]) -> &[u8]
    ensures { result.now ≡ file_by (meaning answer) file.now }
{
    match answer {
        Ok(_) => file,
        Err(_) => &file[..0],
    }
}
