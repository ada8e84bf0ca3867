// AES-256-GCM.
ghost use Rattle.std.specs.Prelude.{◌≡◌, cond, ◌<◌, ◌≤◌, ◌+◌, ◌-◌, ◌^◌, length};
ghost use Rattle.aes_spec.specs.Cipher.{aes};
ghost use Rattle.gcm.specs.Gcm as spec;
ghost use Rattle.primitives.specs.Results.{end, gcm_fits, gcm_seal, gcm_open};

use aes::round_table::RoundTable;
use gcm::aead::{crypt, good, seal};
use gcm::key::{Key, prepare};

// Do the sizes fit, of a text of n bytes?
#[tactic(auto, unfolding(crate::specs::Results::gcm_fits))]
fn gcm_fits(key: &[u8], nonce: &[u8], aad: &[u8], n: usize) -> bool
    ensures { result ≡ gcm_fits key.now nonce.now aad.now n }
{
    key.len() == 32 && nonce.len() == 12 && aad.len() < 2305843009213693952 && n <= 68719476704
}

// Seals the cleartext under a key.
fn seal_under(key: &[u8], nonce: &[u8], aad: &[u8], cleartext: &[u8], out: &mut [u8])
    requires key_len { (length key.now ≡ 32) × (length nonce.now ≡ 12) × (length aad.now < 2 ^ 61) × (length cleartext.now ≤ 2 ^ 36 - 32) }
    requires out_len { length out.old ≡ length cleartext.now + 16 }
    ensures { out.new ≡ spec.seal (aes 8 key.now) nonce.now aad.now cleartext.now }
{
    let t = RoundTable::new();
    let mut w = [0u32; 60];
    let mut m = [0u64; 32];
    prepare(&t, key, &mut w, &mut m);
    let k = Key {
        t: &t,
        w: &w,
        m: &m,
    };
    seal(&k, nonce, aad, cleartext, out);
}

// The ciphertext, and then the tag.
#[tactic(auto, unfolding(crate::specs::Results::gcm_seal, crate::specs::Results::done_if))]
pub fn primitives_gcm_seal(
    key: &[u8],
    nonce: &[u8],
    aad: &[u8],
    cleartext: &[u8],
    out: &mut [u8],
) -> u32
    ensures { end result out.new ≡ gcm_seal key.now nonce.now aad.now cleartext.now out.old }
{
    if !gcm_fits(key, nonce, aad, cleartext.len()) {
        return 0;
    }
    let n = cleartext.len() + 16;
    if out.len() < n {
        return 0;
    }
    seal_under(key, nonce, aad, cleartext, &mut out[..n]);
    1
}

// Opens the sealed text under a key, if its tag is right.
// Kept: the answer is the test itself and becomes a status of the C interface; `Option<()>` says no more.
fn open_under(key: &[u8], nonce: &[u8], aad: &[u8], sealed: &[u8], out: &mut [u8]) -> bool
    requires key_len { (length key.now ≡ 32) × (length nonce.now ≡ 12) × (length aad.now < 2 ^ 61) × (length sealed.now ≤ 2 ^ 36 - 16) }
    requires sealed_len { length sealed.now ≡ length out.old + 16 }
    ensures value { result ≡ spec.good (aes 8 key.now) nonce.now aad.now sealed.now }
    ensures out_after { out.new ≡ cond result (spec.plain (aes 8 key.now) nonce.now sealed.now) out.old }
{
    let t = RoundTable::new();
    let mut w = [0u32; 60];
    let mut m = [0u64; 32];
    prepare(&t, key, &mut w, &mut m);
    let k = Key {
        t: &t,
        w: &w,
        m: &m,
    };
    if !good(&k, nonce, aad, sealed) {
        return false;
    }
    let n = sealed.len() - 16;
    crypt(&t, &w, nonce, &sealed[..n], 0, out);
    true
}

// The cleartext, if the tag is right.
#[tactic(auto, unfolding(crate::specs::Results::gcm_open, crate::specs::Results::done_if))]
pub fn primitives_gcm_open(
    key: &[u8],
    nonce: &[u8],
    aad: &[u8],
    sealed: &[u8],
    out: &mut [u8],
) -> u32
    ensures { end result out.new ≡ gcm_open key.now nonce.now aad.now sealed.now out.old }
{
    if sealed.len() < 16 {
        return 0;
    }
    let n = sealed.len() - 16;
    if !gcm_fits(key, nonce, aad, n) {
        return 0;
    }
    if out.len() < n {
        return 0;
    }
    u32::from(open_under(key, nonce, aad, sealed, &mut out[..n]))
}
