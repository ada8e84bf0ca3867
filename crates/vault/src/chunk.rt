// Chunks, by the combo.
ghost use Rattle.std.specs.Prelude.{◌≡◌, ◌+◌, ◌≤◌, ◌<◌, ◌^◌, length, take, drop};
ghost use Rattle.octets.specs.Bytes.{placed};
ghost use Rattle.aes_spec.specs.Cipher.{cipher, aes};
ghost use Rattle.gcm.specs.Keyed.{Keyed};
ghost use Rattle.vault.specs.Vault.{sizes_of};
ghost use Rattle.vault.specs.Under.{sealed_under, good_under, opened_under, clear_in, Tagged};

use crate::record::Combo;
use aes::round_table::RoundTable;
use gcm::key::{Key, prepare};
use siv_ctrmac::chunk as ctrmac_chunk;
use siv_gcm::chunk as gcm_chunk;

// What the chunks of a file are sealed and tested with, lent: the content key made ready, of which SIV_CTRMAC uses no hash subkey, the MAC master key, which
// SIV_CTRMAC uses, and the nonce of the header.
#[derive(Clone, Copy)]
pub struct FileKeys<'k, 'a> {
    pub combo: Combo,
    pub content: Key<'k>,
    pub mac: &'a [u8],
    pub header_nonce: &'a [u8],
    pub ghost nonce_size: { length header_nonce.now ≡ (sizes_of combo).nonce },
}

// The key schedule of a content key, and the table of its hash subkey.
pub fn key_tables(t: &RoundTable, key: &[u8]) -> ([u32; 60], [u64; 32])
    requires key_len { length key.now ≡ 32 }
    ensures { Keyed t.now.words result.0 result.1 × (cipher 14 result.0 ≡ aes 8 key.now) }
{
    let mut w = [0u32; 60];
    let mut m = [0u64; 32];
    prepare(t, key, &mut w, &mut m);
    (w, m)
}

// Kept: two arms of one call each, by a combo that is known when the code runs; a `dyn` chosen by the same `match` would add a step.
impl FileKeys<'_, '_> {
    // Writes a chunk to out, which has just its length.
    pub fn seal(&self, number: u64, nonce: &[u8], cleartext: &[u8], out: &mut [u8])
        requires { (length nonce.now ≡ (sizes_of self.now.combo).nonce) × (length cleartext.now < 2 ^ 61) × (length out.old ≡ length cleartext.now + (sizes_of self.now.combo).overhead) }
        ensures { out.new ≡ sealed_under self.now.combo (cipher 14 self.now.content.w.now) self.now.mac.now self.now.header_nonce.now number nonce.now cleartext.now }
    {
        let FileKeys {
            content,
            mac,
            header_nonce,
            ..
        } = *self;
        match self.combo {
            Combo::SivGcm => {
                gcm_chunk::seal_chunk(&content, header_nonce, number, nonce, cleartext, out)
            }
            Combo::SivCtrmac => {
                let Key { t, w, .. } = content;
                ctrmac_chunk::seal_chunk(t, w, mac, header_nonce, number, nonce, cleartext, out)
            }
        }
    }

    // Seals a chunk in place: its cleartext stands behind the room of the nonce, and before that of the tag or MAC.
    pub fn seal_in_place(&self, number: u64, nonce: &[u8], chunk: &mut [u8])
        requires { (length nonce.now ≡ (sizes_of self.now.combo).nonce) × ((sizes_of self.now.combo).overhead ≤ length chunk.old) × (length chunk.old < 2 ^ 61) }
        ensures { chunk.new ≡ sealed_under self.now.combo (cipher 14 self.now.content.w.now) self.now.mac.now self.now.header_nonce.now number nonce.now (clear_in (sizes_of self.now.combo) chunk.old) }
    {
        let FileKeys {
            content,
            mac,
            header_nonce,
            ..
        } = *self;
        match self.combo {
            Combo::SivGcm => {
                gcm_chunk::seal_chunk_in_place(&content, header_nonce, number, nonce, chunk)
            }
            Combo::SivCtrmac => {
                let Key { t, w, .. } = content;
                ctrmac_chunk::seal_chunk_in_place(t, w, mac, header_nonce, number, nonce, chunk)
            }
        }
    }

    // Is the tag or MAC of a chunk right?
    pub fn good(&self, number: u64, chunk: &[u8]) -> bool
        requires { (length chunk.now < 2 ^ 61) × ((sizes_of self.now.combo).overhead ≤ length chunk.now) }
        ensures { result ≡ good_under self.now.combo (cipher 14 self.now.content.w.now) self.now.mac.now self.now.header_nonce.now number chunk.now }
    {
        let FileKeys {
            content,
            mac,
            header_nonce,
            ..
        } = *self;
        match self.combo {
            Combo::SivGcm => gcm_chunk::good_chunk(&content, header_nonce, number, chunk),
            Combo::SivCtrmac => ctrmac_chunk::good_chunk(mac, header_nonce, number, chunk),
        }
    }
}

// Writes to out the cleartext of a chunk from its byte lo on, as much as out holds. A caller has to show that its tag or MAC is right.
// Kept: docs/DECISIONS.md names it, and a method of FileKeys would ask for the hash table and the header's nonce too.
pub fn open_part(combo: Combo, t: &RoundTable, w: &[u32], chunk: &[u8], lo: usize, out: &mut [u8])
    requires tagged { (60 ≤ length w.now) × Tagged combo (cipher 14 w.now) chunk.now }
    requires combo_in_bounds { lo + length out.old + (sizes_of combo).overhead ≤ length chunk.now }
    ensures { out.new ≡ take (length out.old) (drop lo (opened_under combo (cipher 14 w.now) chunk.now)) }
{
    match combo {
        Combo::SivGcm => siv_gcm::stored::open_part(t, w, chunk, lo, out),
        Combo::SivCtrmac => siv_ctrmac::stored::open_part(t, w, chunk, lo, out),
    }
}

// Deciphers a chunk in place: the cleartext then stands where the ciphertext stood. A caller has to show that its tag or MAC is right.
// Kept: docs/DECISIONS.md names it, and a method of FileKeys would ask for the hash table and the header's nonce too.
pub fn open_in_place(combo: Combo, t: &RoundTable, w: &[u32], chunk: &mut [u8])
    requires tagged { (60 ≤ length w.now) × Tagged combo (cipher 14 w.now) chunk.old }
    requires combo_in_bounds { (sizes_of combo).overhead ≤ length chunk.old }
    ensures { chunk.new ≡ placed (opened_under combo (cipher 14 w.now) chunk.old) (sizes_of combo).nonce chunk.old }
{
    match combo {
        Combo::SivGcm => siv_gcm::stored::open_in_place(t, w, chunk),
        Combo::SivCtrmac => siv_ctrmac::stored::open_in_place(t, w, chunk),
    }
}
