// The wrapping and unwrapping of a master key by RFC 3394, with AES-256 under the key-encryption key kek.
#![tactic(auto)]

mod registers;
mod steps;
mod store;

ghost use Rattle.std.specs.Prelude.{◌≡◌, true, false, length, MatchResult};
ghost use Rattle.octets.specs.Rows.{ended};
ghost use Rattle.octets.specs.Words.{word_bytes};
ghost use Rattle.answer.specs.declared.Refusal.TheVariants.{CheckValue};
ghost use Rattle.answer.specs.Meaning.{meaning};
ghost use Rattle.aes_spec.specs.Cipher.{aes};
ghost use Rattle.aes_inverse.specs.InverseCipher.{inverse_aes};
ghost use Rattle.key_wrap.specs.KeyWrap.{wrap, unwrapped, good};
ghost use Rattle.key_wrap.specs.Calls.{wrap_key, unwrap_key};

use crate::registers::{Registers, checks};
use crate::steps::{unwrapped, wrapped};
use crate::store::{store, store_key};
use aes::key::expand;
use aes::round_table::RoundTable;
use aes_inverse::round_table::InverseRoundTable;
use aes_inverse::unmix::unmix_keys;
use answer::Refusal;

// Writes the wrapped key.
fn wrap_into(kek: &[u8], key: &[u8], out: &mut [u8])
    requires { (length kek.now ≡ 32) × (length key.now ≡ 32) × (length out.old ≡ 40) }
    ensures { out.new ≡ wrap (aes 8 kek.now) key.now }
{
    let t = RoundTable::new();
    let mut w = [0u32; 60];
    expand(kek, &mut w);
    store(&wrapped(&t, &w, key), out);
}

// The registers of a wrapped key after all steps back, if the check value is right.
fn unwrap_registers(kek: &[u8], wrapped_key: &[u8]) -> Result<Registers, Refusal>
    requires { (length kek.now ≡ 32) × (length wrapped_key.now ≡ 40) }
    ensures { MatchResult result
        (λ x. (good (inverse_aes 8 kek.now) wrapped_key.now ≡ true) × (word_bytes x ≡ unwrapped (inverse_aes 8 kek.now) wrapped_key.now))
        (λ e. (good (inverse_aes 8 kek.now) wrapped_key.now ≡ false) × (e ≡ CheckValue)) }
{
    let t = InverseRoundTable::new();
    let mut w = [0u32; 60];
    expand(kek, &mut w);
    let mut v = [0u32; 60];
    unmix_keys(&w, &mut v);
    let x = unwrapped(&t, &w, &v, wrapped_key);
    if !checks(&x) {
        return Err(Refusal::CheckValue);
    }
    Ok(x)
}

/// Wraps a key: writes 40 bytes. Rows 1, 7.
pub fn wrap_key(kek: &[u8], key: &[u8], out: &mut [u8]) -> Result<usize, Refusal>
    ensures { ended (meaning result) out.new ≡ wrap_key kek.now key.now out.old }
{
    if kek.len() != 32 {
        return Err(Refusal::KeyOrNonceSize);
    }
    if key.len() != 32 {
        return Err(Refusal::KeyOrNonceSize);
    }
    if out.len() < 40 {
        return Err(Refusal::Room);
    }
    wrap_into(kek, key, &mut out[..40]);
    Ok(40)
}

/// Unwraps a key: writes 32 bytes. Rows 1, 4, 7, 20.
pub fn unwrap_key(kek: &[u8], wrapped_key: &[u8], out: &mut [u8]) -> Result<usize, Refusal>
    ensures { ended (meaning result) out.new ≡ unwrap_key kek.now wrapped_key.now out.old }
{
    if kek.len() != 32 {
        return Err(Refusal::KeyOrNonceSize);
    }
    if wrapped_key.len() != 40 {
        return Err(Refusal::Length);
    }
    if out.len() < 32 {
        return Err(Refusal::Room);
    }
    let x = unwrap_registers(kek, wrapped_key)?;
    store_key(&x, &mut out[..32]);
    Ok(32)
}
