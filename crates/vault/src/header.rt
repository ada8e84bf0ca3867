// Headers, by the combo.
ghost use Rattle.std.specs.Prelude.{◌≡◌, cond, length};
ghost use Rattle.frame.specs.Frame.{payload_of, own_head};
ghost use Rattle.vault.specs.Vault.{sizes_of, codec_with};

use crate::record::Combo;
use aes::round_table::RoundTable;

// Writes the header of a nonce, eight bytes FF and a content key to out, which has just its length.
// Kept: here and below, two arms of one call each, by a combo that is known when the code runs; a `dyn` chosen by the same `match` would add a step.
pub fn seal_header(
    combo: Combo,
    t: &RoundTable,
    enc: &[u8],
    mac: &[u8],
    nonce: &[u8],
    key: &[u8],
    out: &mut [u8],
)
    requires enc_len { (length enc.now ≡ 32) × (length nonce.now ≡ (sizes_of combo).nonce) × (length key.now ≡ 32) × (length out.old ≡ (sizes_of combo).header) }
    ensures { out.new ≡ (codec_with combo enc.now mac.now).header_of (own_head nonce.now key.now) }
{
    match combo {
        Combo::SivGcm => siv_gcm::header::seal_header(t, enc, nonce, key, out),
        Combo::SivCtrmac => siv_ctrmac::header::seal_header(t, enc, mac, nonce, key, out),
    }
}

// The payload of a good header: its eight reserved bytes and its content key. Of a header whose tag or MAC is wrong there is none.
pub fn open_header(
    combo: Combo,
    t: &RoundTable,
    enc: &[u8],
    mac: &[u8],
    header: &[u8],
) -> Option<[u8; 40]>
    requires enc_len { (length enc.now ≡ 32) × (length header.now ≡ (sizes_of combo).header) }
    ensures { result ≡ cond ((codec_with combo enc.now mac.now).header_good header.now) (Some (payload_of ((codec_with combo enc.now mac.now).head_of header.now))) None }
{
    match combo {
        Combo::SivGcm => siv_gcm::header::open_header(t, enc, header),
        Combo::SivCtrmac => siv_ctrmac::header::open_header(t, enc, mac, header),
    }
}
