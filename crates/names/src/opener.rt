// Opening a name.
ghost use Rattle.std.specs.Prelude.{◌≡◌};
ghost use Rattle.octets.specs.Rows.{ended};
ghost use Rattle.answer.specs.Meaning.{meaning};
ghost use Rattle.names.specs.ByRecord.{open_name, open_long_name};

use crate::head::{look_at, name_in};
use answer::Refusal;
use name_texts::checks::short;
use name_texts::texts::{is_hash, open_text};
use vault::record::Vault;

// The characters of the longest full name.
const LONGEST_FULL: usize = 1388;

/// Opens a full name of at most as many characters as the record's threshold, which is stored unshortened, in the directory with this ID.
/// Rows 18, 2, 5, 7, 12, 3.
pub fn open_name(v: Vault, dir_id: &[u8], stored: &[u8], out: &mut [u8]) -> Result<usize, Refusal>
    ensures { ended (meaning result) out.new ≡ open_name v dir_id.now stored.now out.old }
{
    look_at(v.threshold, dir_id)?;
    let n = name_in(stored, v.threshold as usize)?;
    if out.len() < n {
        return Err(Refusal::Room);
    }
    open_text(&v.enc, &v.mac, dir_id, stored, n, out)
}

/// Opens a shortened name from its hash name, as stored, and its full name, in the directory with this ID. Rows 18, 2, 5, 7, 11,
/// 12, 3.
pub fn open_long_name(
    v: Vault,
    dir_id: &[u8],
    stored: &[u8],
    full: &[u8],
    out: &mut [u8],
) -> Result<usize, Refusal>
    ensures { ended (meaning result) out.new ≡ open_long_name v dir_id.now stored.now full.now out.old }
{
    look_at(v.threshold, dir_id)?;
    let n = name_in(full, LONGEST_FULL)?;
    if out.len() < n {
        return Err(Refusal::Room);
    }
    if short(v.threshold, full.len()) {
        return Err(Refusal::HashName);
    }
    if !is_hash(stored, full) {
        return Err(Refusal::HashName);
    }
    open_text(&v.enc, &v.mac, dir_id, full, n, out)
}
