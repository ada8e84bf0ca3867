// A range read once its sizes are known to fit: the header, and then what is read under its content key.
ghost use Rattle.std.specs.Prelude.{◌≡◌, true, ◌+◌, ◌≤◌, length};
ghost use Rattle.octets.specs.Rows.{ended};
ghost use Rattle.frame.specs.Layout.{clear_length, right_length};
ghost use Rattle.frame.specs.Frame.{read_range};
ghost use Rattle.vault.specs.Vault.{sizes_of, codec_of};
ghost use Rattle.answer.specs.Meaning.{meaning};

use aes::round_table::RoundTable;
use answer::Refusal;
use file_parts::header::open_head;
use file_range::under::read_under;
use vault::record::Vault;

// Reads a range that lies inside, into a buffer with room.
pub fn read_inside(
    v: Vault,
    file: &[u8],
    n: usize,
    from: usize,
    count: usize,
    out: &mut [u8],
) -> Result<usize, Refusal>
    requires { (right_length (sizes_of v.combo) (length file.now) ≡ true) × (n ≡ clear_length (sizes_of v.combo) (length file.now)) × (from + count ≤ n) × (count ≤ length out.old) }
    ensures { ended (meaning result) out.new ≡ read_range (codec_of v) file.now from count out.old }
{
    let t = RoundTable::new();
    let payload = open_head(v.combo, &t, &v.enc, &v.mac, file).ok_or(Refusal::Header)?;
    read_under(
        v.combo,
        &t,
        &payload[8..],
        &v.mac,
        file,
        n,
        from,
        count,
        out,
    )
}
