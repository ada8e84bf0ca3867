// The chunks that cover a range, sealed again one after the other: which part of the new bytes goes to each, and where.
ghost use Rattle.std.specs.Prelude.{◌≡◌, true, ℕ, ◌+◌, ◌-◌, ◌*◌, ◌/◌, ◌≤◌, ◌<◌, min, length};
ghost use Rattle.octets.specs.Bytes.{placed};
ghost use Rattle.aes_spec.specs.Cipher.{cipher};
ghost use Rattle.frame.specs.Layout.{covering, file_length, chunk_at};
ghost use Rattle.vault.specs.Vault.{sizes_of};
ghost use Rattle.vault.specs.Under.{sealed_under, good_under, opened_under};
ghost use Rattle.mend_spec.specs.Mend.{chunk_start};
ghost use Rattle.file_mend.specs.Under.{mended_under};

use crate::chunk::reseal;
use file_parts::chunks::{end_chunk, span_of};
use file_parts::nonces::nonce;
use file_parts::range::part_len;
use vault::chunk::FileKeys;
use vault::sizes::sizes_of;

// Seals chunk i of a file of n bytes of cleartext again, after the bytes of the chunk's cleartext from lo on are replaced by `part`.
fn mend_chunk(
    keys: &FileKeys,
    file: &mut [u8],
    n: usize,
    i: usize,
    nonce: &[u8],
    part: &[u8],
    lo: usize,
)
    requires nonce_len { length nonce.now ≡ (sizes_of keys.now.combo).nonce }
    requires file_len { (length file.old ≡ file_length (sizes_of keys.now.combo) n) × (32768 * i < n) × (lo + length part.now ≤ min 32768 (n - 32768 * i)) }
    requires i_value { good_under keys.now.combo (cipher 14 keys.now.content.w.now) keys.now.mac.now keys.now.header_nonce.now i (chunk_at (sizes_of keys.now.combo) file.old i) ≡ true }
    ensures file_after { file.new ≡ placed (sealed_under keys.now.combo (cipher 14 keys.now.content.w.now) keys.now.mac.now keys.now.header_nonce.now i nonce.now (placed part.now lo (opened_under keys.now.combo (cipher 14 keys.now.content.w.now) (chunk_at (sizes_of keys.now.combo) file.old i)))) (chunk_start (sizes_of keys.now.combo) i) file.old }
    ensures i_len { length (sealed_under keys.now.combo (cipher 14 keys.now.content.w.now) keys.now.mac.now keys.now.header_nonce.now i nonce.now (placed part.now lo (opened_under keys.now.combo (cipher 14 keys.now.content.w.now) (chunk_at (sizes_of keys.now.combo) file.old i)))) ≡ length (chunk_at (sizes_of keys.now.combo) file.old i) }
{
    let span = span_of(keys.combo, file.len(), n, i);
    let a = span.start;
    let b = span.end;
    reseal(keys, i as u64, nonce, part, lo, &mut file[a..b]);
}

// Seals all chunks again that cover the range from `from` on, after its bytes are replaced by `new`. A caller has to show that every covering
// tag or MAC is right.
pub fn mend_chunks(
    keys: &FileKeys,
    file: &mut [u8],
    n: usize,
    from: usize,
    new: &[u8],
    nonces: &[u8],
)
    requires nonces_len { length nonces.now ≡ (sizes_of keys.now.combo).nonce * covering from (length new.now) }
    requires file_len { (length file.old ≡ file_length (sizes_of keys.now.combo) n) × (from + length new.now ≤ n) }
    requires by_index { (i : ℕ) → from / 32768 ≤ i → i < from / 32768 + covering from (length new.now) → good_under keys.now.combo (cipher 14 keys.now.content.w.now) keys.now.mac.now keys.now.header_nonce.now i (chunk_at (sizes_of keys.now.combo) file.old i) ≡ true }
    ensures { file.new ≡ mended_under keys.now.combo (cipher 14 keys.now.content.w.now) keys.now.mac.now keys.now.header_nonce.now file.old from new.now nonces.now }
{
    let s = sizes_of(keys.combo).nonce;
    let first = from / 32768;
    let e = end_chunk(from, new.len());
    for i in first..e {
        let lo = from.saturating_sub(32768 * i);
        let d = (32768 * i).saturating_sub(from);
        let q = d + part_len(lo, new.len() - d);
        mend_chunk(
            keys,
            file,
            n,
            i,
            nonce(s, nonces, i - first),
            &new[d..q],
            lo,
        );
    }
}
