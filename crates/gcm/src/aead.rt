// GCM: the tag, the test of a stored one, and sealing (SP 800-38D, section 7). A sealed text is a ciphertext and its tag.
// What only enciphers is lent the round table t and the key schedule w, and what hashes a key made ready (`key::prepare`).
ghost use Rattle.std.specs.Prelude.{◌≡◌, ◌<◌, ◌≤◌, ◌+◌, ◌-◌, ◌^◌, ◌++◌, length, take, drop};
ghost use Rattle.octets.specs.BigEndian.{be};
ghost use Rattle.aes_spec.specs.Cipher.{cipher};
ghost use Rattle.aes.specs.Blocks.{state};
ghost use Rattle.gcm.specs.Gcm as spec;

use crate::ghash::hashed;
use crate::key::Key;
use aes::block::{Block, add, block_at, encrypt, equal, to_bytes};
use aes::round_table::RoundTable;
use ctr::counter::Counter32;
use octets::slice::copy_at;
use octets::word::word_at;

// The counter block of a nonce and a number.
fn counter(nonce: &[u8], n: u32) -> Block
    requires { length nonce.now ≡ 12 }
    ensures { state result ≡ nonce.now ++ be 4 n }
{
    Block {
        a: word_at(nonce, 0),
        b: word_at(nonce, 4),
        c: word_at(nonce, 8),
        d: n,
    }
}

// Writes to out the bytes from lo on of the text that src is enciphered or deciphered to, as many as out holds.
// Kept: the clause on w, here and below: see `aes::block::encrypt`.
pub fn crypt(t: &RoundTable, w: &[u32], nonce: &[u8], src: &[u8], lo: usize, out: &mut [u8])
    requires in_bounds { (60 ≤ length w.now) × (length nonce.now ≡ 12) × (lo + length out.old ≤ length src.now) }
    ensures { out.new ≡ take (length out.old) (drop lo (spec.crypt (cipher 14 w.now) nonce.now src.now)) }
{
    ctr::crypt::<Counter32>(t, w, counter(nonce, 2), src, lo, out);
}

// The same in place: the text becomes what it is enciphered or deciphered to.
pub fn crypt_in_place(t: &RoundTable, w: &[u32], nonce: &[u8], text: &mut [u8])
    requires in_bounds { (60 ≤ length w.now) × (length nonce.now ≡ 12) }
    ensures { text.new ≡ spec.crypt (cipher 14 w.now) nonce.now text.old }
{
    ctr::in_place::crypt_in_place::<Counter32>(t, w, counter(nonce, 2), text);
}

pub fn tag(k: &Key, nonce: &[u8], aad: &[u8], ciphertext: &[u8]) -> Block
    requires nonce_len { (length nonce.now ≡ 12) × (length aad.now < 2 ^ 61) × (length ciphertext.now < 2 ^ 61) }
    ensures { state result ≡ spec.tag (cipher 14 k.now.w.now) nonce.now aad.now ciphertext.now }
{
    add(
        Block::from(hashed(k.m, aad, ciphertext)),
        encrypt(k.t, k.w, counter(nonce, 1)),
    )
}

// Is the tag of a sealed text the right one?
pub fn good(k: &Key, nonce: &[u8], aad: &[u8], sealed: &[u8]) -> bool
    requires nonce_len { (length nonce.now ≡ 12) × (length aad.now < 2 ^ 61) × (length sealed.now < 2 ^ 61) × (16 ≤ length sealed.now) }
    ensures { result ≡ spec.good (cipher 14 k.now.w.now) nonce.now aad.now sealed.now }
{
    let n = sealed.len() - 16;
    let x = tag(k, nonce, aad, &sealed[..n]);
    equal(x, block_at(sealed, n))
}

// Writes the tag of the ciphertext that out begins with into its last 16 bytes.
fn put_tag(k: &Key, nonce: &[u8], aad: &[u8], out: &mut [u8])
    requires nonce_len { (length nonce.now ≡ 12) × (length aad.now < 2 ^ 61) × (16 ≤ length out.old) × (length out.old < 2 ^ 61 + 16) }
    ensures { out.new ≡ spec.ciphertext_of out.old ++ spec.tag (cipher 14 k.now.w.now) nonce.now aad.now (spec.ciphertext_of out.old) }
{
    let n = out.len() - 16;
    let x = tag(k, nonce, aad, &out[..n]);
    copy_at(&to_bytes(x), out, n);
}

// Writes the sealed cleartext to out, which has just its length.
pub fn seal(k: &Key, nonce: &[u8], aad: &[u8], cleartext: &[u8], out: &mut [u8])
    requires nonce_len { (length nonce.now ≡ 12) × (length aad.now < 2 ^ 61) × (length cleartext.now < 2 ^ 61) }
    requires out_len { length out.old ≡ length cleartext.now + 16 }
    ensures { out.new ≡ spec.seal (cipher 14 k.now.w.now) nonce.now aad.now cleartext.now }
{
    let n = cleartext.len();
    crypt(k.t, k.w, nonce, cleartext, 0, &mut out[..n]);
    put_tag(k, nonce, aad, out);
}

// Seals in place: out holds the cleartext, and behind it the room of the tag.
pub fn seal_in_place(k: &Key, nonce: &[u8], aad: &[u8], out: &mut [u8])
    requires nonce_len { (length nonce.now ≡ 12) × (length aad.now < 2 ^ 61) × (16 ≤ length out.old) × (length out.old < 2 ^ 61) }
    ensures { out.new ≡ spec.seal (cipher 14 k.now.w.now) nonce.now aad.now (take (length out.old - 16) out.old) }
{
    let n = out.len() - 16;
    crypt_in_place(k.t, k.w, nonce, &mut out[..n]);
    put_tag(k, nonce, aad, out);
}
