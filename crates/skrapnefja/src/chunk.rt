// A single chunk.
ghost use Rattle.std.specs.Prelude.{◌≡◌, List, ℕ};
ghost use Rattle.frame.specs.Frame.{head_with};
ghost use Rattle.frame.specs.Single.{write_chunk, open_chunk};
ghost use Rattle.vault.specs.Vault.{codec_of};
ghost use Rattle.vault_bytes.specs.VaultBytes.{lent_end};
ghost use Rattle.skrapnefja.specs.Results.{plain_result, result_of, placed_result, placed_result_of};

use crate::ending::{end, end_at};
use answer::row_number;
use content::chunk::{open_chunk, write_chunk};
use vault_bytes::lent_vault;

// Writes the chunk of a number, a nonce and a cleartext of 1 to 32,768 bytes.
pub fn skrapnefja_write_chunk(
    vault: &[u8],
    content_key: &[u8],
    header_nonce: &[u8],
    number: u64,
    nonce: &[u8],
    cleartext: &[u8],
    out: &mut [u8],
    written: &mut u64,
) -> u32
    ensures { ((reserved : List ℕ) → plain_result result out.new written.new ≡ result_of (lent_end vault.now (λ v. write_chunk (codec_of v) (head_with header_nonce.now reserved content_key.now) number nonce.now cleartext.now out.old) out.old) written.old) }
{
    match lent_vault(vault) {
        Ok(v) => end(
            write_chunk(v, content_key, header_nonce, number, nonce, cleartext, out),
            written,
        ),
        Err(refusal) => row_number(refusal),
    }
}

// Opens a chunk under its number: writes its cleartext.
pub fn skrapnefja_open_chunk(
    vault: &[u8],
    content_key: &[u8],
    header_nonce: &[u8],
    number: u64,
    chunk: &[u8],
    out: &mut [u8],
    written: &mut u64,
    at: &mut u64,
) -> u32
    ensures { ((reserved : List ℕ) → placed_result result out.new written.new at.new ≡ placed_result_of (lent_end vault.now (λ v. open_chunk (codec_of v) (head_with header_nonce.now reserved content_key.now) number chunk.now out.old) out.old) written.old at.old) }
{
    match lent_vault(vault) {
        Ok(v) => end_at(
            open_chunk(v, content_key, header_nonce, number, chunk, out),
            written,
            at,
        ),
        Err(refusal) => row_number(refusal),
    }
}
