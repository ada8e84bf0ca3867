// Two reads through one reader: the first changes nothing for the second.
ghost use Rattle.std.specs.Prelude.{◌≡◌};
ghost use Rattle.octets.specs.Rows.{ended};
ghost use Rattle.answer.specs.Meaning.{meaning};
ghost use Rattle.file_reader.specs.Kept.{open_kept, read_kept};

use crate::{open_reader, read};
use answer::Refusal;
use vault::record::Vault;

/// What two reads through one reader answer.
#[derive(Clone, Copy)]
pub struct TwoAnswers {
    pub first: Result<usize, Refusal>,
    pub second: Result<usize, Refusal>,
}

/// Makes the reader of a file and reads two ranges through it, the first into out, the second into next.
pub fn read_twice(
    v: Vault,
    file: &[u8],
    a: usize,
    m: usize,
    out: &mut [u8],
    b: usize,
    n: usize,
    next: &mut [u8],
) -> TwoAnswers
    ensures { (ended (meaning result.first) out.new ≡ read_kept (open_kept v file.now).keys (open_kept v file.now).file a m out.old) × (ended (meaning result.second) next.new ≡ read_kept (open_kept v file.now).keys (open_kept v file.now).file b n next.old) }
{
    let opened = open_reader(v, file);
    let first = read(opened.reader, a, m, out);
    let second = read(opened.reader, b, n, next);
    TwoAnswers { first, second }
}
