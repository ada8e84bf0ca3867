// Writing a name.
ghost use Rattle.std.specs.Prelude.{◌≡◌};
ghost use Rattle.answer.specs.Meaning.{name_meaning};
ghost use Rattle.name_spec.specs.Calls.{name_ended};
ghost use Rattle.names.specs.ByRecord.{write_name};

use crate::head::look_at;
use answer::{Refusal, StoredName};
use name_texts::checks::{name_right, short};
use name_texts::texts::{full_length, write_full, write_hash};
use vault::record::Vault;

/// Writes what is stored for the name in the directory with this ID, and for a shortened name its full name to the second buffer.
/// Rows 18, 2, 3, 7.
pub fn write_name(
    v: Vault,
    dir_id: &[u8],
    name: &[u8],
    stored: &mut [u8],
    full: &mut [u8],
) -> Result<StoredName, Refusal>
    ensures { name_ended (name_meaning result) stored.new full.new ≡ write_name v dir_id.now name.now stored.old full.old }
{
    let threshold = v.threshold;
    look_at(threshold, dir_id)?;
    if !name_right(name) {
        return Err(Refusal::Name);
    }
    let n = full_length(name.len());
    if short(threshold, n) {
        if stored.len() < n {
            return Err(Refusal::Room);
        }
        write_full(&v.enc, &v.mac, dir_id, name, stored);
        return Ok(StoredName::Plain(n));
    }
    if stored.len() < 32 {
        return Err(Refusal::Room);
    }
    if full.len() < n {
        return Err(Refusal::Room);
    }
    write_full(&v.enc, &v.mac, dir_id, name, full);
    write_hash(&full[..n], stored);
    Ok(StoredName::Shortened(32, n))
}
