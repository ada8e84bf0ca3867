// A range read under the MAC master key and the nonce and the content key of a good header: every covering tag or MAC, and only then the cleartext.
ghost use Rattle.std.specs.Prelude.{◌≡◌, ◌+◌, ◌≤◌, length, take};
ghost use Rattle.octets.specs.Rows.{ended};
ghost use Rattle.frame.specs.Layout.{file_length};
ghost use Rattle.vault.specs.Vault.{sizes_of};
ghost use Rattle.answer.specs.Meaning.{meaning};
ghost use Rattle.file_range.specs.Under.{read_under};

use crate::range::write_range;
use aes::round_table::RoundTable;
use answer::Refusal;
use file_parts::chunks::{end_chunk, lowest_bad};
use gcm::key::Key;
use vault::chunk::{FileKeys, key_tables};
use vault::record::Combo;
use vault::sizes::sizes_of;

// Reads the range of a file of n bytes of cleartext under its content key and the MAC master key.
// Kept: combo, key and mac apart, since the key schedule that FileKeys lends is made here, and for a MAC key of any length.
pub fn read_under(
    combo: Combo,
    t: &RoundTable,
    key: &[u8],
    mac: &[u8],
    file: &[u8],
    n: usize,
    from: usize,
    count: usize,
    out: &mut [u8],
) -> Result<usize, Refusal>
    requires key_len { (length key.now ≡ 32) × (length file.now ≡ file_length (sizes_of combo) n) × (from + count ≤ n) × (count ≤ length out.old) }
    ensures { ended (meaning result) out.new ≡ read_under combo mac.now (take (sizes_of combo).nonce file.now) key.now file.now from count out.old }
{
    let (w, m) = key_tables(t, key);
    let s = sizes_of(combo).nonce;
    let content = Key { t, w: &w, m: &m };
    let keys = FileKeys {
        combo,
        content,
        mac,
        header_nonce: &file[..s],
    };
    let first = from / 32768;
    let e = end_chunk(from, count);
    if let Some(i) = lowest_bad(&keys, file, n, first, e) {
        return Err(Refusal::Chunk(i as u64));
    }
    write_range(combo, t, &w, mac, file, n, from, count, out);
    Ok(count)
}
