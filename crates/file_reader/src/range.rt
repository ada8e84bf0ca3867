// A read through the keys and the bytes that a reader holds.
ghost use Rattle.std.specs.Prelude.{◌≡◌};
ghost use Rattle.octets.specs.Rows.{ended};
ghost use Rattle.answer.specs.Meaning.{meaning};
ghost use Rattle.file_reader.specs.Kept.{read_kept};

use crate::keys::ReaderKeys;
use aes::round_table::RoundTable;
use answer::Refusal;
use file_parts::range::outside;
use file_range::under::read_under;
use vault::lengths::{clear_length, right_length};

/// Reads count bytes of the cleartext, from `from` on, into out. Rows 4, 6, 7, 10.
pub fn read_kept(
    file: &[u8],
    keys: ReaderKeys,
    from: usize,
    count: usize,
    out: &mut [u8],
) -> Result<usize, Refusal>
    ensures { ended (meaning result) out.new ≡ read_kept keys file.now from count out.old }
{
    let combo = keys.combo;
    if !right_length(combo, file.len()) {
        return Err(Refusal::Length);
    }
    let n = clear_length(combo, file.len());
    if outside(n, from, count) {
        return Err(Refusal::Range);
    }
    if out.len() < count {
        return Err(Refusal::Room);
    }
    let t = RoundTable::new();
    read_under(
        combo,
        &t,
        &keys.content,
        &keys.mac,
        file,
        n,
        from,
        count,
        out,
    )
}
