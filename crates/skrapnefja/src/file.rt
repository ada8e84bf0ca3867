// A whole file, and a range of one: read, or replaced in place.
ghost use Rattle.std.specs.Prelude.{◌≡◌};
ghost use Rattle.frame.specs.Frame.{own_choice, read_range, open_file, write_file};
ghost use Rattle.mend_spec.specs.Mend.{mend_file};
ghost use Rattle.vault.specs.Vault.{codec_of};
ghost use Rattle.vault_bytes.specs.VaultBytes.{lent_end};
ghost use Rattle.skrapnefja.specs.Results.{plain_result, result_of, placed_result, placed_result_of};

use crate::ending::{end, end_at};
use answer::row_number;
use file_mend::mend;
use file_read::{open_file, read_range};
use file_write::write_file;
use vault_bytes::lent_vault;

// Writes the file of a cleartext; `chunk_nonces` has one nonce for each chunk, in order.
pub fn skrapnefja_write_file(
    vault: &[u8],
    header_nonce: &[u8],
    content_key: &[u8],
    chunk_nonces: &[u8],
    cleartext: &[u8],
    out: &mut [u8],
    written: &mut u64,
) -> u32
    ensures { plain_result result out.new written.new ≡ result_of (lent_end vault.now (λ v. write_file (codec_of v) (own_choice header_nonce.now content_key.now chunk_nonces.now cleartext.now) out.old) out.old) written.old }
{
    match lent_vault(vault) {
        Ok(v) => end(
            write_file(v, header_nonce, content_key, chunk_nonces, cleartext, out),
            written,
        ),
        Err(refusal) => row_number(refusal),
    }
}

// Opens a file.
pub fn skrapnefja_open_file(
    vault: &[u8],
    file: &[u8],
    out: &mut [u8],
    written: &mut u64,
    at: &mut u64,
) -> u32
    ensures { placed_result result out.new written.new at.new ≡ placed_result_of (lent_end vault.now (λ v. open_file (codec_of v) file.now out.old) out.old) written.old at.old }
{
    match lent_vault(vault) {
        Ok(v) => end_at(open_file(v, file, out), written, at),
        Err(refusal) => row_number(refusal),
    }
}

// Reads count bytes of the cleartext of a file, from `from` on.
pub fn skrapnefja_read_range(
    vault: &[u8],
    file: &[u8],
    from: u64,
    count: u64,
    out: &mut [u8],
    written: &mut u64,
    at: &mut u64,
) -> u32
    ensures { placed_result result out.new written.new at.new ≡ placed_result_of (lent_end vault.now (λ v. read_range (codec_of v) file.now from count out.old) out.old) written.old at.old }
{
    match lent_vault(vault) {
        Ok(v) => end_at(
            read_range(v, file, from as usize, count as usize, out),
            written,
            at,
        ),
        Err(refusal) => row_number(refusal),
    }
}

// Replaces the bytes of the cleartext of a file from `from` on, in place; `nonces` has one nonce for each chunk that covers the range, in order.
pub fn skrapnefja_mend(
    vault: &[u8],
    file: &mut [u8],
    from: u64,
    new_bytes: &[u8],
    nonces: &[u8],
    written: &mut u64,
    at: &mut u64,
) -> u32
    ensures { placed_result result file.new written.new at.new ≡ placed_result_of (lent_end vault.now (λ v. mend_file (codec_of v) file.old from new_bytes.now nonces.now) file.old) written.old at.old }
{
    match lent_vault(vault) {
        Ok(v) => end_at(mend(v, file, from as usize, new_bytes, nonces), written, at),
        Err(refusal) => row_number(refusal),
    }
}
