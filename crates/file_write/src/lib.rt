// The file writer, under the vault's record.
#![tactic(auto)]

mod chunks;

ghost use Rattle.std.specs.Prelude.{◌≡◌, ◌&&◌, ◌*◌, ◌≤◌, length, eqb};
ghost use Rattle.octets.specs.Rows.{ended};
ghost use Rattle.frame.specs.Layout.{chunks, file_length};
ghost use Rattle.frame.specs.Frame.{own_head, own_choice, head_right, file_of, write_file};
ghost use Rattle.answer.specs.Meaning.{meaning};
ghost use Rattle.vault.specs.Vault.{sizes_of, codec_of};

use crate::chunks::write_chunks;
use aes::round_table::RoundTable;
use answer::Refusal;
use file_parts::nonces::repeats;
use gcm::key::Key;
use vault::chunk::{FileKeys, key_tables};
use vault::header::seal_header;
use vault::lengths::file_length;
use vault::record::{Combo, Vault};
use vault::sizes::{head_right, sizes_of};

// Do the header's nonce and the content key have their sizes, and is there a nonce of w bytes for each chunk of n bytes of cleartext?
fn sizes_right(
    combo: Combo,
    w: usize,
    header_nonce: &[u8],
    key: &[u8],
    nonces: &[u8],
    n: usize,
) -> bool
    requires { w ≤ 16 }
    ensures { result ≡ (head_right (sizes_of combo) (own_head header_nonce.now key.now) && eqb (length nonces.now) (w * chunks n)) }
{
    head_right(combo, header_nonce, key) && nonces.len() == w * frame::chunks(n)
}

// Writes the file to out, which has just its length: the header, and then the chunks.
fn seal_file(
    v: Vault,
    header_nonce: &[u8],
    key: &[u8],
    nonces: &[u8],
    cleartext: &[u8],
    out: &mut [u8],
)
    requires header_nonce_len { (length header_nonce.now ≡ (sizes_of v.combo).nonce) × (length key.now ≡ 32) }
    requires nonces_len { (length nonces.now ≡ (sizes_of v.combo).nonce * chunks (length cleartext.now)) × (length out.old ≡ file_length (sizes_of v.combo) (length cleartext.now)) }
    ensures { out.new ≡ file_of (codec_of v) (own_choice header_nonce.now key.now nonces.now cleartext.now) }
{
    let t = RoundTable::new();
    let header = sizes_of(v.combo).header;
    seal_header(
        v.combo,
        &t,
        &v.enc,
        &v.mac,
        header_nonce,
        key,
        &mut out[..header],
    );
    let (w, m) = key_tables(&t, key);
    let content = Key {
        t: &t,
        w: &w,
        m: &m,
    };
    let keys = FileKeys {
        combo: v.combo,
        content,
        mac: &v.mac,
        header_nonce,
    };
    write_chunks(&keys, nonces, cleartext, &mut out[header..]);
}

/// Writes the file of a cleartext to the front of out, and answers its length. `nonces` has one nonce for each chunk, in order.
/// Rows 1, 4, 7, 8.
pub fn write_file(
    v: Vault,
    header_nonce: &[u8],
    key: &[u8],
    nonces: &[u8],
    cleartext: &[u8],
    out: &mut [u8],
) -> Result<usize, Refusal>
    ensures { ended (meaning result) out.new ≡ write_file (codec_of v) (own_choice header_nonce.now key.now nonces.now cleartext.now) out.old }
{
    let combo = v.combo;
    let n = cleartext.len();
    let w = sizes_of(combo).nonce;
    if !sizes_right(combo, w, header_nonce, key, nonces, n) {
        return Err(Refusal::KeyOrNonceSize);
    }
    if n > 16777216 {
        return Err(Refusal::Length);
    }
    let size = file_length(combo, n);
    if out.len() < size {
        return Err(Refusal::Room);
    }
    if repeats(w, frame::chunks(n), nonces) {
        return Err(Refusal::RepeatedNonce);
    }
    let file = &mut out[..size];
    seal_file(v, header_nonce, key, nonces, cleartext, file);
    Ok(size)
}
