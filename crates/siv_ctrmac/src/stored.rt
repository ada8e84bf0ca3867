// A nonce, a ciphertext and its MAC, as headers and chunks are stored. The MAC covers the data a and b, the nonce and the ciphertext.
// Kept: the clause on w, here and in `chunk`: see `aes::block::encrypt`.
ghost use Rattle.std.specs.Prelude.{◌≡◌, ◌++◌, ◌≤◌, ◌+◌, ◌-◌, length, take, drop};
ghost use Rattle.octets.specs.Bytes.{placed, same};
ghost use Rattle.aes_spec.specs.Cipher.{cipher};
ghost use Rattle.hmac.specs.Hmac.{hmac_sha256};
ghost use Rattle.siv_ctrmac.specs.SivCtrmac.{crypt, sealed, opens, opened, Tagged};

use aes::block::{block_at, differences};
use aes::round_table::RoundTable;
use ctr::counter::Counter128;
use ctr::crypt;
use ctr::in_place::crypt_in_place;
use octets::slice::copy_at;

// Writes the nonce and the ciphertext of cleartext to out, which has just their length.
fn encipher(t: &RoundTable, w: &[u32], nonce: &[u8], cleartext: &[u8], out: &mut [u8])
    requires in_bounds { 60 ≤ length w.now }
    requires nonce_len { (length nonce.now ≡ 16) × (length out.old ≡ length cleartext.now + 16) }
    ensures { out.new ≡ nonce.now ++ crypt (cipher 14 w.now) nonce.now cleartext.now }
{
    copy_at(nonce, out, 0);
    crypt::<Counter128>(t, w, block_at(nonce, 0), cleartext, 0, &mut out[16..]);
}

// The same in place: the cleartext stands behind the room of the nonce.
fn encipher_in_place(t: &RoundTable, w: &[u32], nonce: &[u8], text: &mut [u8])
    requires in_bounds { 60 ≤ length w.now }
    requires nonce_len { (length nonce.now ≡ 16) × (16 ≤ length text.old) }
    ensures { text.new ≡ nonce.now ++ crypt (cipher 14 w.now) nonce.now (drop 16 text.old) }
{
    copy_at(nonce, text, 0);
    crypt_in_place::<Counter128>(t, w, block_at(nonce, 0), &mut text[16..]);
}

// Writes the MAC of a, b and what out holds before it into the last 32 bytes of out.
fn put_mac(key: &[u8], a: &[u8], b: &[u8], out: &mut [u8])
    requires { 32 ≤ length out.old }
    ensures { out.new ≡ take (length out.old - 32) out.old ++ hmac_sha256 key.now ((a.now ++ b.now) ++ take (length out.old - 32) out.old) }
{
    let e = out.len() - 32;
    let mac = hmac::mac(key, a, b, &out[..e]);
    copy_at(&mac, out, e);
}

// Writes the sealed cleartext to out, which has just its length; key is that of the MAC.
pub fn seal(
    t: &RoundTable,
    w: &[u32],
    key: &[u8],
    a: &[u8],
    b: &[u8],
    nonce: &[u8],
    cleartext: &[u8],
    out: &mut [u8],
)
    requires in_bounds { 60 ≤ length w.now }
    requires nonce_len { (length nonce.now ≡ 16) × (length out.old ≡ length cleartext.now + 48) }
    ensures { out.new ≡ sealed (cipher 14 w.now) (hmac_sha256 key.now) (a.now ++ b.now) nonce.now cleartext.now }
{
    let e = out.len() - 32;
    encipher(t, w, nonce, cleartext, &mut out[..e]);
    put_mac(key, a, b, out);
}

// Seals in place: the cleartext stands behind the room of the nonce, and before that of the MAC.
pub fn seal_in_place(
    t: &RoundTable,
    w: &[u32],
    key: &[u8],
    a: &[u8],
    b: &[u8],
    nonce: &[u8],
    stored: &mut [u8],
)
    requires in_bounds { 60 ≤ length w.now }
    requires nonce_len { (length nonce.now ≡ 16) × (48 ≤ length stored.old) }
    ensures { stored.new ≡ sealed (cipher 14 w.now) (hmac_sha256 key.now) (a.now ++ b.now) nonce.now (take (length stored.old - 48) (drop 16 stored.old)) }
{
    let e = stored.len() - 32;
    encipher_in_place(t, w, nonce, &mut stored[..e]);
    put_mac(key, a, b, stored);
}

// Are two MACs equal? The time does not depend on where they differ.
// Kept: docs/DECISIONS.md: MACs are compared with no early exit; the edit `half_of_the_mac_compared` stands on it.
fn equal(a: &[u8], b: &[u8]) -> bool
    requires { (length a.now ≡ 32) × (length b.now ≡ 32) }
    ensures { result ≡ same a.now b.now }
{
    let first = differences(block_at(a, 0), block_at(b, 0));
    let second = differences(block_at(a, 16), block_at(b, 16));
    first + second == 0
}

// Is the MAC right?
pub fn good(key: &[u8], a: &[u8], b: &[u8], stored: &[u8]) -> bool
    requires { 32 ≤ length stored.now }
    ensures { result ≡ opens (hmac_sha256 key.now) (a.now ++ b.now) stored.now }
{
    let e = stored.len() - 32;
    let mac = hmac::mac(key, a, b, &stored[..e]);
    equal(&mac, &stored[e..])
}

// Writes to out the cleartext from its byte lo on, as much as out holds. A caller has to show that the MAC is right.
pub fn open_part(t: &RoundTable, w: &[u32], stored: &[u8], lo: usize, out: &mut [u8])
    requires tagged { (60 ≤ length w.now) × Tagged stored.now }
    requires out_in_bounds { lo + length out.old + 48 ≤ length stored.now }
    ensures { out.new ≡ take (length out.old) (drop lo (opened (cipher 14 w.now) stored.now)) }
{
    let e = stored.len() - 32;
    crypt::<Counter128>(t, w, block_at(stored, 0), &stored[16..e], lo, out);
}

// Deciphers in place: the cleartext then stands where the ciphertext stood. A caller has to show that the MAC is right.
pub fn open_in_place(t: &RoundTable, w: &[u32], stored: &mut [u8])
    requires tagged { (60 ≤ length w.now) × Tagged stored.old }
    requires in_bounds { 48 ≤ length stored.old }
    ensures { stored.new ≡ placed (opened (cipher 14 w.now) stored.old) 16 stored.old }
{
    let e = stored.len() - 32;
    crypt_in_place::<Counter128>(t, w, block_at(stored, 0), &mut stored[16..e]);
}
