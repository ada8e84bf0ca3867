// SIV under the two master keys: CMAC under the MAC key, counter mode under the encryption key.
ghost use Rattle.std.specs.Prelude.{◌≡◌, true, [], ◌∷◌, ◌≤◌, ◌+◌, length, option_copied};
ghost use Rattle.octets.specs.Bytes.{placed};
ghost use Rattle.aes_spec.specs.Cipher.{aes};
ghost use Rattle.siv.specs.Siv as spec;
ghost use Rattle.siv.specs.Pieces.{pieces};
ghost use Rattle.frame.specs.Frame.{master_keys_right};
ghost use Rattle.name_spec.specs.Names.{name_limit, iv_size};

use aes::key::expand;
use aes::round_table::RoundTable;
use siv::seal::{open_into, seal};

// Writes the sealed cleartext to the front of out; ad is the associated data, if it is given.
// Kept: the clause `mac_value`, here and in what calls it: the callers hold both keys in a Vault, which is above this crate; a pair of them, made at each call to be taken apart in the next, is no plainer.
pub fn seal_under(enc: &[u8], mac: &[u8], ad: Option<&[u8]>, cleartext: &[u8], out: &mut [u8])
    requires mac_value { master_keys_right enc.now mac.now ≡ true }
    requires cleartext_len_bound { (length cleartext.now ≤ name_limit) × (length cleartext.now + iv_size ≤ length out.old) }
    ensures { out.new ≡ placed (spec.seal (aes 8 mac.now) (aes 8 enc.now) (pieces (option_copied ad.entry)) cleartext.now) 0 out.old }
{
    let t = RoundTable::new();
    let mut w_mac = [0u32; 60];
    expand(mac, &mut w_mac);
    let mut w_enc = [0u32; 60];
    expand(enc, &mut w_enc);
    let n = cleartext.len() + 16;
    seal(&t, &w_mac, &w_enc, ad, cleartext, &mut out[..n]);
}

// Kept: the answer is the flag alone; the clause `out_after` says what `out` holds where it is false too.
// Writes the cleartext to the front of out, and tells whether the synthetic IV matches with the one string ad of associated data.
pub fn open_under(enc: &[u8], mac: &[u8], ad: &[u8], sealed: &[u8], out: &mut [u8]) -> bool
    requires mac_value { master_keys_right enc.now mac.now ≡ true }
    requires iv_size_in_bounds { (iv_size ≤ length sealed.now) × (length sealed.now ≤ name_limit + iv_size) × (length sealed.now ≤ length out.old + iv_size) }
    ensures value { result ≡ spec.good (aes 8 mac.now) (aes 8 enc.now) (ad.now ∷ []) sealed.now }
    ensures out_after { out.new ≡ placed (spec.plain (aes 8 enc.now) sealed.now) 0 out.old }
{
    let t = RoundTable::new();
    let mut w_mac = [0u32; 60];
    expand(mac, &mut w_mac);
    let mut w_enc = [0u32; 60];
    expand(enc, &mut w_enc);
    let n = sealed.len() - 16;
    open_into(&t, &w_mac, &w_enc, Some(ad), sealed, &mut out[..n])
}
