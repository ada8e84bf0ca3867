// A header: its nonce, its payload enciphered under the encryption master key, and its MAC under the MAC master key.
ghost use Rattle.std.specs.Prelude.{◌≡◌, cond, length};
ghost use Rattle.frame.specs.Frame.{payload_of, own_head};
ghost use Rattle.siv_ctrmac.specs.SivCtrmac.{header_of, head_of, header_good};

use crate::stored::{good, open_part, seal};
use aes::key::expand;
use aes::round_table::RoundTable;
use frame::own_payload;

// Writes the header of a nonce, eight bytes FF and a content key to out, which has just its length.
pub fn seal_header(t: &RoundTable, enc: &[u8], mac: &[u8], nonce: &[u8], key: &[u8], out: &mut [u8])
    requires enc_len { (length enc.now ≡ 32) × (length nonce.now ≡ 16) × (length key.now ≡ 32) × (length out.old ≡ 88) }
    ensures { out.new ≡ header_of enc.now mac.now (own_head nonce.now key.now) }
{
    let mut w = [0u32; 60];
    expand(enc, &mut w);
    seal(t, &w, mac, b"", b"", nonce, &own_payload(key), out);
}

// The payload of a good header: its eight reserved bytes and its content key. Of a header whose MAC is wrong there is none.
pub fn open_header(t: &RoundTable, enc: &[u8], mac: &[u8], header: &[u8]) -> Option<[u8; 40]>
    requires enc_len { (length enc.now ≡ 32) × (length header.now ≡ 88) }
    ensures { result ≡ cond (header_good enc.now mac.now header.now) (Some (payload_of (head_of enc.now mac.now header.now))) None }
{
    if !good(mac, b"", b"", header) {
        return None;
    }
    let mut w = [0u32; 60];
    expand(enc, &mut w);
    let mut payload = [0u8; 40];
    open_part(t, &w, header, 0, &mut payload);
    Some(payload)
}
