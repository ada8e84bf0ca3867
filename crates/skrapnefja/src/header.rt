// A single header.
ghost use Rattle.std.specs.Prelude.{◌≡◌};
ghost use Rattle.frame.specs.Frame.{own_head};
ghost use Rattle.frame.specs.Single.{write_header, open_header};
ghost use Rattle.vault.specs.Vault.{codec_of};
ghost use Rattle.vault_bytes.specs.VaultBytes.{lent_end};
ghost use Rattle.skrapnefja.specs.Results.{plain_result, result_of, header_result, header_result_of};

use crate::ending::{end, end_header};
use answer::row_number;
use content::header::{open_header, write_header};
use vault_bytes::lent_vault;

// Writes the header of a nonce and a content key, its eight reserved bytes FF.
pub fn skrapnefja_write_header(
    vault: &[u8],
    nonce: &[u8],
    content_key: &[u8],
    out: &mut [u8],
    written: &mut u64,
) -> u32
    ensures { plain_result result out.new written.new ≡ result_of (lent_end vault.now (λ v. write_header (codec_of v) (own_head nonce.now content_key.now) out.old) out.old) written.old }
{
    match lent_vault(vault) {
        Ok(v) => end(write_header(v, nonce, content_key, out), written),
        Err(refusal) => row_number(refusal),
    }
}

// Opens a header: writes its content key, 32 bytes, and its eight reserved bytes as a number, the first byte the highest.
pub fn skrapnefja_open_header(
    vault: &[u8],
    header: &[u8],
    out: &mut [u8],
    written: &mut u64,
    reserved: &mut u64,
) -> u32
    ensures { header_result result out.new written.new reserved.new ≡ header_result_of (lent_end vault.now (λ v. open_header (codec_of v) header.now out.old) out.old) written.old reserved.old }
{
    match lent_vault(vault) {
        Ok(v) => end_header(open_header(v, header, out), written, reserved),
        Err(refusal) => row_number(refusal),
    }
}
