// Full names and hash names, written and opened.
ghost use Rattle.std.specs.Prelude.{◌≡◌, true, ◌≤◌, length};
ghost use Rattle.octets.specs.Bytes.{placed, same};
ghost use Rattle.octets.specs.Rows.{ended};
ghost use Rattle.frame.specs.Frame.{master_keys_right};
ghost use Rattle.name_spec.specs.Names as spec;
ghost use Rattle.answer.specs.Meaning.{meaning};
ghost use Rattle.name_spec.specs.Calls.{hash_length, open_text};

use crate::checks::NAME_LIMIT;
use crate::keyed::{open_under, seal_under};
use answer::Refusal;
use encoding::base64url;
use octets::slice::{copy_at, equal};
use sha1_hash::digest;
use utf8::proper_text;

// How many characters the full name of a name of n bytes has.
pub fn full_length(n: usize) -> usize
    requires { n ≤ spec.name_limit }
    ensures { result ≡ spec.full_length n }
{
    base64url::encoded_length(n + 16, true) + 4
}

// Kept: the clause `mac_value`, here and below, and no type of both keys: see `keyed::seal_under`.
// Writes the full name to the front of out.
pub fn write_full(enc: &[u8], mac: &[u8], id: &[u8], name: &[u8], out: &mut [u8])
    requires mac_value { master_keys_right enc.now mac.now ≡ true }
    requires name_len_bound { (length name.now ≤ spec.name_limit) × (spec.full_length (length name.now) ≤ length out.old) }
    ensures { out.new ≡ placed (spec.full_name enc.now mac.now id.now name.now) 0 out.old }
{
    // Kept: a buffer of the greatest size and the length beside it: no heap.
    let mut sealed = [0u8; NAME_LIMIT + 16];
    seal_under(enc, mac, Some(id), name, &mut sealed);
    let m = name.len() + 16;
    base64url::encode(&sealed[..m], true, out);
    copy_at(b".c9r", out, base64url::encoded_length(m, true));
}

// Writes the hash name of a full name to the front of out.
pub fn write_hash(full: &[u8], out: &mut [u8])
    requires { hash_length ≤ length out.old }
    ensures { out.new ≡ placed (spec.hash_name full.now) 0 out.old }
{
    base64url::encode(&digest(full), true, out);
    copy_at(b".c9s", out, 28);
}

// Is this the hash name of the full name?
pub fn is_hash(stored: &[u8], full: &[u8]) -> bool
    ensures { result ≡ same stored.now (spec.hash_name full.now) }
{
    let mut hash = [0u8; 32];
    write_hash(full, &mut hash);
    equal(stored, &hash)
}

// Opens a text in the form of a full name, of a name of n bytes. The name goes to the front of out only where the synthetic IV matches and it is proper
// text. Rows 12, 3.
pub fn open_text(
    enc: &[u8],
    mac: &[u8],
    id: &[u8],
    text: &[u8],
    n: usize,
    out: &mut [u8],
) -> Result<usize, Refusal>
    requires mac_value { master_keys_right enc.now mac.now ≡ true }
    requires text_value { (spec.text_right text.now ≡ true) × (n ≡ spec.name_length text.now) × (n ≤ length out.old) }
    ensures { ended (meaning result) out.new ≡ open_text enc.now mac.now id.now text.now out.old }
{
    let k = text.len() - 4;
    // Kept: a buffer of the greatest size and the length beside it: no heap.
    let mut sealed = [0u8; NAME_LIMIT + 16];
    base64url::decode(&text[..k], true, &mut sealed);
    let m = n + 16;
    let mut name = [0u8; NAME_LIMIT];
    if !open_under(enc, mac, id, &sealed[..m], &mut name) {
        return Err(Refusal::SyntheticIv);
    }
    if !proper_text(&name[..n]) {
        return Err(Refusal::Name);
    }
    copy_at(&name[..n], out, 0);
    Ok(n)
}
