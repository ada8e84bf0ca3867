// A mend once its sizes are known to fit and its nonces to be fresh: the header, every covering tag or MAC, and only then the chunks.
ghost use Rattle.std.specs.Prelude.{◌≡◌, List, ℕ, true, false, ◌+◌, ◌*◌, ◌≤◌, length};
ghost use Rattle.octets.specs.Rows.{ended};
ghost use Rattle.aes_spec.specs.Cipher.{cipher, aes};
ghost use Rattle.frame.specs.Layout.{covering, file_length, clear_length, right_length};
ghost use Rattle.vault.specs.Vault.{sizes_of, codec_of};
ghost use Rattle.answer.specs.Meaning.{meaning};
ghost use Rattle.mend_spec.specs.Mend.{clashes, mend_file};
ghost use Rattle.file_mend.specs.Under.{mend_under};

use crate::chunks::mend_chunks;
use aes::round_table::RoundTable;
use answer::Refusal;
use file_parts::chunks::{end_chunk, lowest_bad};
use file_parts::header::open_head;
use gcm::key::Key;
use octets::slice::copy_at;
use vault::chunk::{FileKeys, key_tables};
use vault::record::Vault;
use vault::sizes::sizes_of;

// Mends a file of n bytes of cleartext under its keys: for each content key k whose key schedule they lend.
fn mend_under(
    keys: &FileKeys,
    file: &mut [u8],
    n: usize,
    from: usize,
    new: &[u8],
    nonces: &[u8],
) -> Result<usize, Refusal>
    requires { (length file.old ≡ file_length (sizes_of keys.now.combo) n) × (from + length new.now ≤ n) × (length nonces.now ≡ (sizes_of keys.now.combo).nonce * covering from (length new.now)) }
    ensures { (k : List ℕ) → cipher 14 keys.now.content.w.now ≡ aes 8 k → ended (meaning result) file.new ≡ mend_under keys.now.combo keys.now.mac.now keys.now.header_nonce.now k file.old from new.now nonces.now }
{
    let first = from / 32768;
    let e = end_chunk(from, new.len());
    if let Some(i) = lowest_bad(keys, file, n, first, e) {
        return Err(Refusal::Chunk(i as u64));
    }
    mend_chunks(keys, file, n, from, new, nonces);
    Ok(new.len())
}

// Mends a range that lies inside, with fresh nonces. The header's nonce is copied, since a part of the file is lent to be changed.
// Kept: a buffer of 16 bytes with the length s, since memory is fixed and a nonce has 12 or 16 bytes.
pub fn mend_inside(
    v: Vault,
    file: &mut [u8],
    n: usize,
    from: usize,
    new: &[u8],
    nonces: &[u8],
) -> Result<usize, Refusal>
    requires file_len { (right_length (sizes_of v.combo) (length file.old) ≡ true) × (n ≡ clear_length (sizes_of v.combo) (length file.old)) × (from + length new.now ≤ n) × (length nonces.now ≡ (sizes_of v.combo).nonce * covering from (length new.now)) }
    requires nonces_value { clashes (sizes_of v.combo) file.old from (length new.now) nonces.now ≡ false }
    ensures { ended (meaning result) file.new ≡ mend_file (codec_of v) file.old from new.now nonces.now }
{
    let t = RoundTable::new();
    let payload = open_head(v.combo, &t, &v.enc, &v.mac, file).ok_or(Refusal::Header)?;
    let (w, m) = key_tables(&t, &payload[8..]);
    let s = sizes_of(v.combo).nonce;
    let mut header_nonce = [0u8; 16];
    copy_at(&file[..s], &mut header_nonce, 0);
    let content = Key {
        t: &t,
        w: &w,
        m: &m,
    };
    let keys = FileKeys {
        combo: v.combo,
        content,
        mac: &v.mac,
        header_nonce: &header_nonce[..s],
    };
    mend_under(&keys, file, n, from, new, nonces)
}
