// A read through the bytes of a reader and the file that it was made for.
ghost use Rattle.std.specs.Prelude.{◌≡◌, cond, [], eqb, length};
ghost use Rattle.octets.specs.Rows.{ended};
ghost use Rattle.answer.specs.Meaning.{meaning};
ghost use Rattle.reader_bytes.specs.ReaderBytes.{reader_size, keys_in, read_lent};

use crate::layout::{COMBO_PLACE, KEY_SIZE, READER_SIZE};
use answer::Refusal;
use file_reader::keys::ReaderKeys;
use file_reader::range::read_kept;
use vault_bytes::combo_of;

// The keys of the bytes of a reader.
fn keys_in(bytes: &[u8]) -> ReaderKeys
    requires { length bytes.now ≡ reader_size }
    ensures { result ≡ keys_in bytes.now }
{
    let mut content = [0u8; KEY_SIZE];
    let mut mac = [0u8; KEY_SIZE];
    content.copy_from_slice(&bytes[..KEY_SIZE]);
    mac.copy_from_slice(&bytes[KEY_SIZE..COMBO_PLACE]);
    ReaderKeys {
        content,
        mac,
        combo: combo_of(u32::from(bytes[COMBO_PLACE])),
    }
}

// What a reader with this last byte holds of a file: nothing where it is 0.
fn file_by(last: u8, file: &[u8]) -> &[u8]
    ensures { result.now ≡ cond (eqb last 0) [] file.now }
{
    if last == 0 { &file[..0] } else { file }
}

/// Reads count bytes of the cleartext of a file, from `from` on, into out, through the bytes of a reader. Rows 1 (not 65 bytes), 17 (the last byte is above 2), 4, 6, 7, 10.
pub fn read_lent(
    file: &[u8],
    bytes: &[u8],
    from: usize,
    count: usize,
    out: &mut [u8],
) -> Result<usize, Refusal>
    ensures { ended (meaning result) out.new ≡ read_lent file.now bytes.now from count out.old }
{
    if bytes.len() != READER_SIZE {
        return Err(Refusal::KeyOrNonceSize);
    }
    // Kept: 0, 1 or 2 for no file and the combos, since the C interface keeps a reader as bytes.
    let last = bytes[COMBO_PLACE];
    if 2 < last {
        return Err(Refusal::Combo);
    }
    read_kept(file_by(last, file), keys_in(bytes), from, count, out)
}
