// A reader that is kept for a file: the file, which is lent again to each read, and 65 bytes.
ghost use Rattle.std.specs.Prelude.{◌≡◌};
ghost use Rattle.reader_bytes.specs.ReaderBytes.{store_lent, read_lent};
ghost use Rattle.skrapnefja.specs.Results.{plain_result, result_of, placed_result, placed_result_of};

use crate::ending::{end, end_at};
use answer::row_number;
use reader_bytes::lent::read_lent;
use reader_bytes::stored::store_reader;
use vault_bytes::lent_vault;

// Makes a reader of a file: writes its keys, 65 bytes, or 65 zeros where the file is refused. `written` is the length of the cleartext.
pub fn skrapnefja_open_reader(vault: &[u8], file: &[u8], keys: &mut [u8], written: &mut u64) -> u32
    ensures { plain_result result keys.new written.new ≡ result_of (store_lent vault.now file.now keys.old) written.old }
{
    match lent_vault(vault) {
        Ok(v) => end(store_reader(v, file, keys), written),
        Err(refusal) => row_number(refusal),
    }
}

// Reads count bytes of the cleartext, from `from` on, through a reader.
pub fn skrapnefja_reader_read(
    file: &[u8],
    keys: &[u8],
    from: u64,
    count: u64,
    out: &mut [u8],
    written: &mut u64,
    at: &mut u64,
) -> u32
    ensures { placed_result result out.new written.new at.new ≡ placed_result_of (read_lent file.now keys.now from count out.old) written.old at.old }
{
    end_at(
        read_lent(file, keys, from as usize, count as usize, out),
        written,
        at,
    )
}
