// A chunk: its nonce, its cleartext enciphered under the content key, and its MAC under the MAC master key, which ties it to its header and
// its place.
ghost use Rattle.std.specs.Prelude.{◌≡◌, ◌≤◌, ◌+◌, ◌-◌, length, take, drop};
ghost use Rattle.aes_spec.specs.Cipher.{cipher};
ghost use Rattle.hmac.specs.Hmac.{hmac_sha256};
ghost use Rattle.siv_ctrmac.specs.SivCtrmac.{sealed, opens, chunk_data};

use crate::stored::{good, seal, seal_in_place};
use aes::round_table::RoundTable;
use octets::word::split_eight;

// Writes a chunk to out, which has just its length.
pub fn seal_chunk(
    t: &RoundTable,
    w: &[u32],
    mac: &[u8],
    header_nonce: &[u8],
    number: u64,
    nonce: &[u8],
    cleartext: &[u8],
    out: &mut [u8],
)
    requires in_bounds { 60 ≤ length w.now }
    requires nonce_len { (length nonce.now ≡ 16) × (length out.old ≡ length cleartext.now + 48) }
    ensures { out.new ≡ sealed (cipher 14 w.now) (hmac_sha256 mac.now) (chunk_data header_nonce.now number) nonce.now cleartext.now }
{
    seal(
        t,
        w,
        mac,
        header_nonce,
        &split_eight(number),
        nonce,
        cleartext,
        out,
    );
}

// Seals a chunk in place: its cleartext stands behind the room of the nonce, and before that of the MAC.
pub fn seal_chunk_in_place(
    t: &RoundTable,
    w: &[u32],
    mac: &[u8],
    header_nonce: &[u8],
    number: u64,
    nonce: &[u8],
    chunk: &mut [u8],
)
    requires in_bounds { 60 ≤ length w.now }
    requires nonce_len { (length nonce.now ≡ 16) × (48 ≤ length chunk.old) }
    ensures { chunk.new ≡ sealed (cipher 14 w.now) (hmac_sha256 mac.now) (chunk_data header_nonce.now number) nonce.now (take (length chunk.old - 48) (drop 16 chunk.old)) }
{
    seal_in_place(t, w, mac, header_nonce, &split_eight(number), nonce, chunk);
}

// Is the MAC of a chunk right?
pub fn good_chunk(mac: &[u8], header_nonce: &[u8], number: u64, chunk: &[u8]) -> bool
    requires { 32 ≤ length chunk.now }
    ensures { result ≡ opens (hmac_sha256 mac.now) (chunk_data header_nonce.now number) chunk.now }
{
    good(mac, header_nonce, &split_eight(number), chunk)
}
