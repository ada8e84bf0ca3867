// The vault's record as bytes, the form in which C callers lend it: 66 bytes, the encryption master key, the MAC master key, the combo's number and the
// threshold.
#![tactic(auto)]

ghost use Rattle.std.specs.Prelude.{◌≡◌, ◌≢◌, length, MatchResult};
ghost use Rattle.octets.specs.Rows.{refused, ended};
ghost use Rattle.answer.specs.Meaning.{meaning, row};
ghost use Rattle.vault_bytes.specs.VaultBytes.{vault_size, combo_known, combo_of, store_vault, lent_row, lent_name_row, vault_in};

use answer::Refusal;
use octets::slice::copy_at;
use threshold::threshold_right;
use vault::record::{Combo, Vault, master_keys_right};

// The bytes of a master key.
const KEY_SIZE: usize = 32;

// Where the combo's number stands, behind the two keys, and the threshold behind it.
const COMBO_PLACE: usize = 64;

const THRESHOLD_PLACE: usize = 65;

// The bytes of a vault.
const VAULT_SIZE: usize = 66;

// Is this the number of a combo?
#[tactic(auto, unfolding(crate::specs::VaultBytes::combo_known))]
fn known(n: u32) -> bool
    ensures { result ≡ combo_known n }
{
    n == 1 || n == 2
}

// The combo of a known number; SIV_CTRMAC for any other.
// Kept: the C interface lends a combo by its number, and `combo_of` of specs/VaultBytes has a combo for every byte.
pub fn combo_of(n: u32) -> Combo
    ensures { result ≡ combo_of n }
{
    if n == 1 {
        Combo::SivGcm
    } else {
        Combo::SivCtrmac
    }
}

/// Writes the record of two lent master keys, a combo's number, 1 for SIV_GCM or 2 for SIV_CTRMAC, and a threshold to the front of out: 66 bytes.
/// Rows 1, 7, 17, 18.
pub fn store_vault(
    enc: &[u8],
    mac: &[u8],
    combo: u32,
    threshold: u32,
    out: &mut [u8],
) -> Result<usize, Refusal>
    ensures { ended (meaning result) out.new ≡ store_vault enc.now mac.now combo threshold out.old }
{
    if !master_keys_right(enc, mac) {
        return Err(Refusal::KeyOrNonceSize);
    }
    let room = VAULT_SIZE;
    if out.len() < room {
        return Err(Refusal::Room);
    }
    if !known(combo) {
        return Err(Refusal::Combo);
    }
    if !threshold_right(threshold) {
        return Err(Refusal::Threshold);
    }
    copy_at(enc, out, 0);
    copy_at(mac, out, KEY_SIZE);
    let numbers = [combo as u8, threshold as u8];
    copy_at(&numbers, out, COMBO_PLACE);
    Ok(VAULT_SIZE)
}

// The record of the bytes of a vault.
pub fn vault_in(bytes: &[u8]) -> Vault
    requires { length bytes.now ≡ vault_size }
    ensures { result ≡ vault_in bytes.now }
{
    let mut enc = [0u8; KEY_SIZE];
    let mut mac = [0u8; KEY_SIZE];
    enc.copy_from_slice(&bytes[..KEY_SIZE]);
    mac.copy_from_slice(&bytes[KEY_SIZE..COMBO_PLACE]);
    let combo = combo_of(bytes[COMBO_PLACE] as u32);
    let threshold = bytes[THRESHOLD_PLACE];
    Vault {
        enc,
        mac,
        combo,
        threshold,
    }
}

/// The record that lent bytes stand for. Rows 1, 17.
pub fn lent_vault(bytes: &[u8]) -> Result<Vault, Refusal>
    ensures { MatchResult result (λ v. (lent_row bytes.now ≡ 0) × (v ≡ vault_in bytes.now)) (λ r. (row r ≡ refused (lent_row bytes.now)) × (lent_row bytes.now ≢ 0)) }
{
    if bytes.len() != VAULT_SIZE {
        return Err(Refusal::KeyOrNonceSize);
    }
    if !known(bytes[COMBO_PLACE] as u32) {
        return Err(Refusal::Combo);
    }
    Ok(vault_in(bytes))
}

/// The same at the calls on names, which look at the threshold before the combo. Rows 1, 18, 17.
pub fn lent_name_vault(bytes: &[u8]) -> Result<Vault, Refusal>
    ensures { MatchResult result (λ v. (lent_name_row bytes.now ≡ 0) × (v ≡ vault_in bytes.now)) (λ r. (row r ≡ refused (lent_name_row bytes.now)) × (lent_name_row bytes.now ≢ 0)) }
{
    if bytes.len() != VAULT_SIZE {
        return Err(Refusal::KeyOrNonceSize);
    }
    if !threshold_right(bytes[THRESHOLD_PLACE] as u32) {
        return Err(Refusal::Threshold);
    }
    lent_vault(bytes)
}
