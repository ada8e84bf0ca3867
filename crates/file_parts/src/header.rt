// The header of a file.
ghost use Rattle.std.specs.Prelude.{◌≡◌, true, false, length, MatchOption};
ghost use Rattle.frame.specs.Layout.{right_length, header_at};
ghost use Rattle.frame.specs.Frame.{payload_of};
ghost use Rattle.vault.specs.Vault.{sizes_of, codec_with};

use aes::round_table::RoundTable;
use vault::header::open_header;
use vault::record::Combo;
use vault::sizes::sizes_of;

// The payload of the header of a file of a right length, if it is good: its eight reserved bytes and its content key.
// Kept: combo, enc and mac apart, since a Vault would ask for a MAC key of 32 bytes of this public function.
pub fn open_head(
    combo: Combo,
    t: &RoundTable,
    enc: &[u8],
    mac: &[u8],
    file: &[u8],
) -> Option<[u8; 40]>
    requires enc_len { (length enc.now ≡ 32) × (right_length (sizes_of combo) (length file.now) ≡ true) }
    ensures { MatchOption result ((codec_with combo enc.now mac.now).header_good (header_at (sizes_of combo) file.now) ≡ false) (λ p. ((codec_with combo enc.now mac.now).header_good (header_at (sizes_of combo) file.now) ≡ true) × (p ≡ payload_of ((codec_with combo enc.now mac.now).head_of (header_at (sizes_of combo) file.now)))) }
{
    let h = sizes_of(combo).header;
    open_header(combo, t, enc, mac, &file[..h])
}
