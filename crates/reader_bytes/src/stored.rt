// The making of a reader, with a buffer for its bytes.
ghost use Rattle.std.specs.Prelude.{◌≡◌, ◌≤◌, length};
ghost use Rattle.octets.specs.Bytes.{filled};
ghost use Rattle.octets.specs.Rows.{ended};
ghost use Rattle.answer.specs.Meaning.{meaning};
ghost use Rattle.reader_bytes.specs.ReaderBytes.{reader_size, combo_number, key_bytes, no_bytes_in, keys_after, store_reader};

use crate::layout::{COMBO_PLACE, KEY_SIZE, READER_SIZE};
use answer::Refusal;
use file_reader::keys::ReaderKeys;
use file_reader::opening::{Opening, open_keys};
use octets::slice::copy_at;
use vault::lengths::right_length;
use vault::record::{Combo, Vault};

// The number of a combo.
// Kept: `From<Combo>` for u8 can stand in vault alone, since both types are foreign here, and the number belongs to these bytes.
fn number_of(combo: Combo) -> u8
    ensures { result ≡ combo_number combo }
{
    match combo {
        Combo::SivGcm => 1,
        Combo::SivCtrmac => 2,
    }
}

// Writes the keys of a reader to the front of out.
fn store_keys(keys: ReaderKeys, out: &mut [u8])
    requires { reader_size ≤ length out.old }
    ensures { out.new ≡ filled (key_bytes keys) reader_size out.old }
{
    copy_at(&keys.content, out, 0);
    copy_at(&keys.mac, out, KEY_SIZE);
    out[COMBO_PLACE] = number_of(keys.combo);
}

// Writes the reader of no bytes to the front of out, if there is room for it.
fn store_none(out: &mut [u8])
    ensures { out.new ≡ no_bytes_in out.old }
{
    if READER_SIZE <= out.len() {
        out[..READER_SIZE].copy_from_slice(&[0u8; READER_SIZE]);
    }
}

// Writes what the opening of a header gave, and answers it.
fn store_opening(opening: Opening, out: &mut [u8]) -> Result<usize, Refusal>
    requires { reader_size ≤ length out.old }
    ensures { (result ≡ opening.answer) × (out.new ≡ keys_after (meaning opening.answer) opening.keys out.old) }
{
    match opening.answer {
        Ok(_) => store_keys(opening.keys, out),
        Err(_) => store_none(out),
    }
    opening.answer
}

/// Makes the reader of a file and writes its bytes to the front of out; done with the length of the cleartext. A refusal writes the reader of no bytes, if there is room
/// for it. Rows 4, 7, 9.
pub fn store_reader(v: Vault, file: &[u8], out: &mut [u8]) -> Result<usize, Refusal>
    ensures { ended (meaning result) out.new ≡ store_reader v file.now out.old }
{
    if !right_length(v.combo, file.len()) {
        store_none(out);
        return Err(Refusal::Length);
    }
    if out.len() < READER_SIZE {
        return Err(Refusal::Room);
    }
    store_opening(open_keys(v, file), out)
}
