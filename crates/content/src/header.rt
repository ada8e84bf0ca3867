// The calls on a single header.
ghost use Rattle.std.specs.Prelude.{◌≡◌};
ghost use Rattle.octets.specs.Rows.{ended};
ghost use Rattle.frame.specs.Frame.{own_head};
ghost use Rattle.frame.specs.Single.{write_header, open_header};
ghost use Rattle.answer.specs.Meaning.{meaning, header_meaning};
ghost use Rattle.vault.specs.Vault.{codec_of};

use aes::round_table::RoundTable;
use answer::Refusal;
use vault::header::seal_header;
use vault::record::Vault;
use vault::sizes::{head_right, sizes_of};

/// Writes the header of a nonce and a content key, its eight reserved bytes FF: 68 bytes in SIV_GCM, 88 in SIV_CTRMAC. Rows 1, 7.
pub fn write_header(v: Vault, nonce: &[u8], key: &[u8], out: &mut [u8]) -> Result<usize, Refusal>
    ensures { ended (meaning result) out.new ≡ write_header (codec_of v) (own_head nonce.now key.now) out.old }
{
    if !head_right(v.combo, nonce, key) {
        return Err(Refusal::KeyOrNonceSize);
    }
    let size = sizes_of(v.combo).header;
    if out.len() < size {
        return Err(Refusal::Room);
    }
    let t = RoundTable::new();
    seal_header(v.combo, &t, &v.enc, &v.mac, nonce, key, &mut out[..size]);
    Ok(size)
}

/// Opens a header: writes its content key, 32 bytes, and returns its eight reserved bytes. Rows 4, 7, 9.
pub fn open_header(v: Vault, header: &[u8], out: &mut [u8]) -> Result<[u8; 8], Refusal>
    ensures out_after { ended (header_meaning result) out.new ≡ open_header (codec_of v) header.now out.old }
{
    if header.len() != sizes_of(v.combo).header {
        return Err(Refusal::Length);
    }
    if out.len() < 32 {
        return Err(Refusal::Room);
    }
    let t = RoundTable::new();
    let Some(payload) = vault::header::open_header(v.combo, &t, &v.enc, &v.mac, header) else {
        return Err(Refusal::Header);
    };
    out[..32].copy_from_slice(&payload[8..]);
    let mut reserved = [0u8; 8];
    reserved.copy_from_slice(&payload[..8]);
    Ok(reserved)
}
