// A header: its nonce, and its payload sealed under the encryption master key.
ghost use Rattle.std.specs.Prelude.{◌≡◌, cond, length};
ghost use Rattle.frame.specs.Frame.{payload_of, own_head};
ghost use Rattle.siv_gcm.specs.SivGcm.{header_of, head_of, header_good};

use crate::stored::{good, open_part, seal};
use aes::round_table::RoundTable;
use frame::own_payload;
use gcm::key::{Key, prepare};

// Writes the header of a nonce, eight bytes FF and a content key to out, which has just its length.
pub fn seal_header(t: &RoundTable, enc: &[u8], nonce: &[u8], key: &[u8], out: &mut [u8])
    requires enc_len { (length enc.now ≡ 32) × (length nonce.now ≡ 12) × (length key.now ≡ 32) × (length out.old ≡ 68) }
    ensures { out.new ≡ header_of enc.now (own_head nonce.now key.now) }
{
    let mut w = [0u32; 60];
    let mut m = [0u64; 32];
    prepare(t, enc, &mut w, &mut m);
    let k = Key { t, w: &w, m: &m };
    seal(&k, nonce, b"", &own_payload(key), out);
}

// The payload of a good header: its eight reserved bytes and its content key. Of a header whose tag is wrong there is none.
pub fn open_header(t: &RoundTable, enc: &[u8], header: &[u8]) -> Option<[u8; 40]>
    requires enc_len { (length enc.now ≡ 32) × (length header.now ≡ 68) }
    ensures { result ≡ cond (header_good enc.now header.now) (Some (payload_of (head_of enc.now header.now))) None }
{
    let mut w = [0u32; 60];
    let mut m = [0u64; 32];
    prepare(t, enc, &mut w, &mut m);
    let k = Key { t, w: &w, m: &m };
    if !good(&k, b"", header) {
        return None;
    }
    let mut payload = [0u8; 40];
    open_part(t, &w, header, 0, &mut payload);
    Some(payload)
}
