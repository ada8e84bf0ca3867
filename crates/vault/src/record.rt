// The vault's record, and its making.
ghost use Rattle.std.specs.Prelude.{◌≡◌};
ghost use Rattle.frame.specs.Frame.{master_keys_right};
ghost use Rattle.answer.specs.Meaning.{row};
ghost use Rattle.vault.specs.Making.{making, make_vault, unmade};

use answer::Refusal;
use threshold::threshold_right;

/// How headers and chunks are enciphered.
#[derive(Clone, Copy)]
pub enum Combo {
    SivGcm,
    SivCtrmac,
}

/// The encryption and the MAC master key, the cipher combo, and the shortening threshold: a full name of more characters is stored by its hash
/// name. Any value of this type is a vault's record; where its threshold is not from 36 to 220, the three calls on names refuse it.
#[derive(Clone, Copy)]
pub struct Vault {
    pub enc: [u8; 32],
    pub mac: [u8; 32],
    pub combo: Combo,
    pub threshold: u8,
}

/// What the making of a record answers, and beside it the record; one of keys of zeros and the threshold 0 beside a refusal.
// Kept: `MakesExactly` and the edit `threshold_of_220_beside_a_refusal` speak of the record beside a refusal.
#[derive(Clone, Copy)]
pub struct MadeVault {
    pub made: Result<(), Refusal>,
    pub vault: Vault,
}

// Do both master keys have 32 bytes?
pub fn master_keys_right(enc: &[u8], mac: &[u8]) -> bool
    ensures { result ≡ master_keys_right enc.now mac.now }
{
    enc.len() == 32 && mac.len() == 32
}

// A refusal of the making.
fn refused(refusal: Refusal, combo: Combo) -> MadeVault
    ensures { making result ≡ unmade (row refusal) combo }
{
    MadeVault {
        made: Err(refusal),
        vault: Vault {
            enc: [0u8; 32],
            mac: [0u8; 32],
            combo,
            threshold: 0,
        },
    }
}

/// The record of two lent master keys, a combo and a threshold. Rows 1, 18.
pub fn make_vault(enc: &[u8], mac: &[u8], combo: Combo, threshold: u32) -> MadeVault
    ensures { making result ≡ make_vault enc.now mac.now combo threshold }
{
    if !master_keys_right(enc, mac) {
        return refused(Refusal::KeyOrNonceSize, combo);
    }
    if !threshold_right(threshold) {
        return refused(Refusal::Threshold, combo);
    }
    let mut e = [0u8; 32];
    let mut m = [0u8; 32];
    e.copy_from_slice(enc);
    m.copy_from_slice(mac);
    MadeVault {
        made: Ok(()),
        vault: Vault {
            enc: e,
            mac: m,
            combo,
            threshold: threshold as u8,
        },
    }
}
