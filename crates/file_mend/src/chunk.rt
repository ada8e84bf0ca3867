// A chunk that is sealed again in place.
ghost use Rattle.std.specs.Prelude.{◌≡◌, true, ◌+◌, ◌≤◌, ◌<◌, ◌^◌, length};
ghost use Rattle.octets.specs.Bytes.{placed};
ghost use Rattle.aes_spec.specs.Cipher.{cipher};
ghost use Rattle.vault.specs.Vault.{sizes_of};
ghost use Rattle.vault.specs.Under.{sealed_under, good_under, opened_under};

use octets::slice::copy_at;
use vault::chunk::{FileKeys, open_in_place};
use vault::sizes::sizes_of;

// Seals a chunk again with another nonce, after the bytes of its cleartext from lo on are replaced by `part`. A caller has to show that its tag or MAC
// is right.
pub fn reseal(keys: &FileKeys, number: u64, nonce: &[u8], part: &[u8], lo: usize, chunk: &mut [u8])
    requires nonce_len { (length nonce.now ≡ (sizes_of keys.now.combo).nonce) × (length chunk.old < 2 ^ 61) × (lo + length part.now + (sizes_of keys.now.combo).overhead ≤ length chunk.old) }
    requires chunk_value { good_under keys.now.combo (cipher 14 keys.now.content.w.now) keys.now.mac.now keys.now.header_nonce.now number chunk.old ≡ true }
    ensures { chunk.new ≡ sealed_under keys.now.combo (cipher 14 keys.now.content.w.now) keys.now.mac.now keys.now.header_nonce.now number nonce.now (placed part.now lo (opened_under keys.now.combo (cipher 14 keys.now.content.w.now) chunk.old)) }
{
    open_in_place(keys.combo, keys.content.t, keys.content.w, chunk);
    copy_at(part, chunk, sizes_of(keys.combo).nonce + lo);
    keys.seal_in_place(number, nonce, chunk);
}
