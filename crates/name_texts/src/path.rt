// The text of a directory's path.
ghost use Rattle.std.specs.Prelude.{◌≡◌, true, ◌≤◌, length};
ghost use Rattle.octets.specs.Bytes.{placed};
ghost use Rattle.frame.specs.Frame.{master_keys_right};
ghost use Rattle.name_spec.specs.Names as spec;
ghost use Rattle.name_spec.specs.Calls.{path_length};

use crate::checks::ID_LIMIT;
use crate::keyed::seal_under;
use encoding::base32;
use octets::slice::copy_at;
use sha1_hash::digest;

// Kept: the clause `mac_value`, here and below, and no type of both keys: see `keyed::seal_under`.
// The characters of the hash of a directory ID. The ID is sealed with no associated data.
fn id_hash(enc: &[u8], mac: &[u8], id: &[u8]) -> [u8; 32]
    requires mac_value { master_keys_right enc.now mac.now ≡ true }
    requires id_len_bound { length id.now ≤ spec.id_limit }
    ensures { result ≡ spec.id_hash enc.now mac.now id.now }
{
    // Kept: a buffer of the greatest size and the length beside it: no heap.
    let mut sealed = [0u8; ID_LIMIT + 16];
    seal_under(enc, mac, None, id, &mut sealed);
    let n = id.len() + 16;
    let mut text = [0u8; 32];
    base32::encode(&digest(&sealed[..n]), &mut text);
    text
}

// Writes the path to the front of out.
pub fn write_path(enc: &[u8], mac: &[u8], id: &[u8], out: &mut [u8])
    requires mac_value { master_keys_right enc.now mac.now ≡ true }
    requires id_len_bound { (length id.now ≤ spec.id_limit) × (path_length ≤ length out.old) }
    ensures { out.new ≡ placed (spec.path enc.now mac.now id.now) 0 out.old }
{
    let text = id_hash(enc, mac, id);
    copy_at(b"/d/", out, 0);
    copy_at(&text[..2], out, 3);
    copy_at(b"/", out, 5);
    copy_at(&text[2..], out, 6);
}
