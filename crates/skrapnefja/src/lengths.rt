// Lengths alone, which have no buffer.
ghost use Rattle.std.specs.Prelude.{◌≡◌, []};
ghost use Rattle.octets.specs.Rows.{ended};
ghost use Rattle.frame.specs.Single.{file_length_of, clear_length_of};
ghost use Rattle.vault.specs.Vault.{sizes_of};
ghost use Rattle.vault_bytes.specs.VaultBytes.{lent_end};
ghost use Rattle.skrapnefja.specs.Results.{plain_result, result_of};

use crate::ending::end;
use answer::row_number;
use content::lengths::{cleartext_length, file_length};
use vault_bytes::lent_vault;

// The length of the file of a cleartext of this length.
pub fn skrapnefja_file_length(vault: &[u8], cleartext_length: u64, written: &mut u64) -> u32
    ensures { plain_result result [] written.new ≡ result_of (lent_end vault.now (λ v. ended (file_length_of (sizes_of v.combo) cleartext_length) []) []) written.old }
{
    match lent_vault(vault) {
        Ok(v) => end(file_length(v, cleartext_length as usize), written),
        Err(refusal) => row_number(refusal),
    }
}

// The length of the cleartext of a file of this length.
pub fn skrapnefja_cleartext_length(vault: &[u8], file_length: u64, written: &mut u64) -> u32
    ensures { plain_result result [] written.new ≡ result_of (lent_end vault.now (λ v. ended (clear_length_of (sizes_of v.combo) file_length) []) []) written.old }
{
    match lent_vault(vault) {
        Ok(v) => end(cleartext_length(v, file_length as usize), written),
        Err(refusal) => row_number(refusal),
    }
}
