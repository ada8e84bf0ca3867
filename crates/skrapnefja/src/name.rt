// Names, and paths of directories.
ghost use Rattle.std.specs.Prelude.{◌≡◌};
ghost use Rattle.names.specs.ByRecord.{write_name, open_name, open_long_name};
ghost use Rattle.vault_bytes.specs.VaultBytes.{lent_name_end};
ghost use Rattle.skrapnefja.specs.Results.{lent_writer_end, path_end, plain_result, result_of, placed_result, placed_result_of, name_result, name_result_of};

use crate::ending::{end, end_at, end_name};
use answer::row_number;
use names::opener::{open_long_name, open_name};
use names::path::dir_path;
use names::writer::write_name;
use vault_bytes::{lent_name_vault, lent_vault};

// Writes what is stored for a name in the directory with this ID, and for a shortened name its full name to the second buffer.
pub fn skrapnefja_write_name(
    vault: &[u8],
    dir_id: &[u8],
    name: &[u8],
    stored: &mut [u8],
    full: &mut [u8],
    written: &mut u64,
    full_length: &mut u64,
) -> u32
    ensures { name_result result stored.new full.new written.new full_length.new ≡ name_result_of (lent_writer_end vault.now (λ v. write_name v dir_id.now name.now stored.old full.old) stored.old full.old) written.old full_length.old }
{
    match lent_name_vault(vault) {
        Ok(v) => end_name(
            write_name(v, dir_id, name, stored, full),
            written,
            full_length,
        ),
        Err(refusal) => row_number(refusal),
    }
}

// Opens a name that is stored as it is; row 5 tells the place in it.
pub fn skrapnefja_open_name(
    vault: &[u8],
    dir_id: &[u8],
    stored: &[u8],
    out: &mut [u8],
    written: &mut u64,
    at: &mut u64,
) -> u32
    ensures { placed_result result out.new written.new at.new ≡ placed_result_of (lent_name_end vault.now (λ v. open_name v dir_id.now stored.now out.old) out.old) written.old at.old }
{
    match lent_name_vault(vault) {
        Ok(v) => end_at(open_name(v, dir_id, stored, out), written, at),
        Err(refusal) => row_number(refusal),
    }
}

// Opens a shortened name: what is stored, and its full name; row 5 tells the place in the latter.
pub fn skrapnefja_open_long_name(
    vault: &[u8],
    dir_id: &[u8],
    stored: &[u8],
    full: &[u8],
    out: &mut [u8],
    written: &mut u64,
    at: &mut u64,
) -> u32
    ensures { placed_result result out.new written.new at.new ≡ placed_result_of (lent_name_end vault.now (λ v. open_long_name v dir_id.now stored.now full.now out.old) out.old) written.old at.old }
{
    match lent_name_vault(vault) {
        Ok(v) => end_at(open_long_name(v, dir_id, stored, full, out), written, at),
        Err(refusal) => row_number(refusal),
    }
}

// Writes the path of the directory with this ID: 36 characters.
pub fn skrapnefja_dir_path(vault: &[u8], dir_id: &[u8], out: &mut [u8], written: &mut u64) -> u32
    ensures { plain_result result out.new written.new ≡ result_of (path_end vault.now dir_id.now out.old) written.old }
{
    match lent_vault(vault) {
        Ok(v) => end(dir_path(v, dir_id, out), written),
        Err(refusal) => row_number(refusal),
    }
}
