// AES-256-CMAC and AES-256-SIV.
ghost use Rattle.std.specs.Prelude.{◌≡◌, Bool, ◌≤◌, ◌+◌, length, option_copied};
ghost use Rattle.aes_spec.specs.Cipher.{aes};
ghost use Rattle.siv.specs.Siv as spec;
ghost use Rattle.siv.specs.Pieces.{pieces};
ghost use Rattle.primitives.specs.Results.{end, cmac256, siv_fits, siv_seal, siv_open};

use aes::block::to_bytes;
use aes::key::expand;
use aes::round_table::RoundTable;
use octets::slice::copy_at;
use siv::cmac::cmac;
use siv::seal::{open_into, seal};

// The tag of a message.
#[tactic(auto, unfolding(crate::specs::Results::cmac256, crate::specs::Results::done_if))]
pub fn primitives_cmac256(key: &[u8], message: &[u8], out: &mut [u8]) -> u32
    ensures { end result out.new ≡ cmac256 key.now message.now out.old }
{
    if key.len() != 32 {
        return 0;
    }
    if out.len() < 16 {
        return 0;
    }
    let t = RoundTable::new();
    let mut w = [0u32; 60];
    expand(key, &mut w);
    copy_at(&to_bytes(cmac(&t, &w, message)), out, 0);
    1
}

// Do the sizes fit, of a text of n bytes?
#[tactic(auto, unfolding(crate::specs::Results::siv_fits))]
fn siv_fits(mac_key: &[u8], enc_key: &[u8], n: usize) -> bool
    ensures { result ≡ siv_fits mac_key.now enc_key.now n }
{
    mac_key.len() == 32 && enc_key.len() == 32 && n <= 1024
}

// Seals the cleartext under two keys.
fn seal_under(mac_key: &[u8], enc_key: &[u8], ad: Option<&[u8]>, cleartext: &[u8], out: &mut [u8])
    requires { (length mac_key.now ≡ 32) × (length enc_key.now ≡ 32) × (length cleartext.now ≤ 1024) × (length out.old ≡ length cleartext.now + 16) }
    ensures { out.new ≡ spec.seal (aes 8 mac_key.now) (aes 8 enc_key.now) (pieces (option_copied ad.entry)) cleartext.now }
{
    let t = RoundTable::new();
    let mut mac = [0u32; 60];
    expand(mac_key, &mut mac);
    let mut enc = [0u32; 60];
    expand(enc_key, &mut enc);
    seal(&t, &mac, &enc, ad, cleartext, out);
}

// The synthetic IV, and then the ciphertext.
#[tactic(auto, unfolding(crate::specs::Results::siv_seal, crate::specs::Results::done_if))]
pub fn primitives_siv_seal(
    mac_key: &[u8],
    enc_key: &[u8],
    ad_given: u32,
    ad: &[u8],
    cleartext: &[u8],
    out: &mut [u8],
) -> u32
    ensures { end result out.new ≡ siv_seal mac_key.now enc_key.now ad_given ad.now cleartext.now out.old }
{
    if !siv_fits(mac_key, enc_key, cleartext.len()) {
        return 0;
    }
    let n = cleartext.len() + 16;
    if out.len() < n {
        return 0;
    }
    seal_under(
        mac_key,
        enc_key,
        (ad_given != 0).then_some(ad),
        cleartext,
        &mut out[..n],
    );
    1
}

// Opens the sealed text under two keys, and tells whether its synthetic IV matches.
// Kept: the answer is the test itself and becomes a status of the C interface; `Option<()>` says no more.
fn open_under(
    mac_key: &[u8],
    enc_key: &[u8],
    ad: Option<&[u8]>,
    sealed: &[u8],
    out: &mut [u8],
) -> bool
    requires { (length mac_key.now ≡ 32) × (length enc_key.now ≡ 32) × (length out.old ≤ 1024) × (length sealed.now ≡ length out.old + 16) }
    ensures value { result ≡ spec.good (aes 8 mac_key.now) (aes 8 enc_key.now) (pieces (option_copied ad.entry)) sealed.now }
    ensures out_after { out.new ≡ spec.plain (aes 8 enc_key.now) sealed.now }
{
    let t = RoundTable::new();
    let mut mac = [0u32; 60];
    expand(mac_key, &mut mac);
    let mut enc = [0u32; 60];
    expand(enc_key, &mut enc);
    open_into(&t, &mac, &enc, ad, sealed, out)
}

// The cleartext, if the synthetic IV matches. It is known to match before the caller's buffer gets a byte.
#[tactic(auto, unfolding(crate::specs::Results::siv_open, crate::specs::Results::done_if))]
pub fn primitives_siv_open(
    mac_key: &[u8],
    enc_key: &[u8],
    ad_given: u32,
    ad: &[u8],
    sealed: &[u8],
    out: &mut [u8],
) -> u32
    ensures { end result out.new ≡ siv_open mac_key.now enc_key.now ad_given ad.now sealed.now out.old }
{
    if sealed.len() < 16 {
        return 0;
    }
    let n = sealed.len() - 16;
    if !siv_fits(mac_key, enc_key, n) {
        return 0;
    }
    if out.len() < n {
        return 0;
    }
    let mut cleartext = [0u8; 1024];
    if !open_under(
        mac_key,
        enc_key,
        (ad_given != 0).then_some(ad),
        sealed,
        &mut cleartext[..n],
    ) {
        return 0;
    }
    copy_at(&cleartext[..n], out, 0);
    1
}
