// The vault's record as bytes.
ghost use Rattle.std.specs.Prelude.{◌≡◌};
ghost use Rattle.vault_bytes.specs.VaultBytes.{store_vault};
ghost use Rattle.skrapnefja.specs.Results.{plain_result, result_of};

use crate::ending::end;
use vault_bytes::store_vault;

// Writes the record of two master keys, a combo, 1 for SIV_GCM or 2 for SIV_CTRMAC, and a threshold from 36 to 220: 66 bytes.
pub fn skrapnefja_make_vault(
    enc: &[u8],
    mac: &[u8],
    combo: u32,
    threshold: u32,
    out: &mut [u8],
    written: &mut u64,
) -> u32
    ensures { plain_result result out.new written.new ≡ result_of (store_vault enc.now mac.now combo threshold out.old) written.old }
{
    end(store_vault(enc, mac, combo, threshold, out), written)
}
