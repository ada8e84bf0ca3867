// The path of a directory.
ghost use Rattle.std.specs.Prelude.{◌≡◌};
ghost use Rattle.octets.specs.Rows.{ended};
ghost use Rattle.answer.specs.Meaning.{meaning};
ghost use Rattle.names.specs.ByRecord.{dir_path};

use answer::Refusal;
use name_texts::checks::id_right;
use name_texts::path::write_path;
use vault::record::Vault;

/// Writes the path of the directory with this ID, 36 characters. Rows 2, 7.
pub fn dir_path(v: Vault, dir_id: &[u8], out: &mut [u8]) -> Result<usize, Refusal>
    ensures { ended (meaning result) out.new ≡ dir_path v dir_id.now out.old }
{
    if !id_right(dir_id) {
        return Err(Refusal::DirectoryId);
    }
    if out.len() < 36 {
        return Err(Refusal::Room);
    }
    write_path(&v.enc, &v.mac, dir_id, out);
    Ok(36)
}
