// A reader that is kept for a file: it holds the file's bytes and the keys that its chunks are read under, so that a read does not open the header again.
#![tactic(auto)]

pub mod keys;
pub mod opening;
pub mod range;
pub mod twice;

ghost use Rattle.std.specs.Prelude.{◌≡◌};
ghost use Rattle.octets.specs.Rows.{ended};
ghost use Rattle.answer.specs.Meaning.{meaning};
ghost use Rattle.file_reader.specs.Kept.{kept_with, open_kept, read_kept};

use crate::keys::ReaderKeys;
use crate::opening::{held, open_keys};
use crate::range::read_kept;
use answer::Refusal;
use vault::record::Vault;

/// The bytes of a file, and its keys. Any value of this type is a reader.
#[derive(Clone, Copy)]
pub struct Reader<'a> {
    pub file: &'a [u8],
    pub keys: ReaderKeys,
}

/// What the making of a reader answers, and beside it the reader; the reader of no bytes beside a refusal.
// Kept: a pair, since a refused file too gives a reader, through which `read_twice` reads (`reads_as_range`: by row 4).
#[derive(Clone, Copy)]
pub struct Opened<'a> {
    pub answer: Result<usize, Refusal>,
    pub reader: Reader<'a>,
}

/// Makes the reader of a file: done with the length of its cleartext. Rows 4, 9.
pub fn open_reader<'a>(v: Vault, file: &'a [u8]) -> Opened<'a>
    ensures { kept_with (meaning result.answer) result.reader.file.now result.reader.keys ≡ open_kept v file.now }
{
    let opening = open_keys(v, file);
    let part = held(opening.answer, file);
    Opened {
        answer: opening.answer,
        reader: Reader {
            file: part,
            keys: opening.keys,
        },
    }
}

/// Reads count bytes of the cleartext, from `from` on, into out. Rows 4, 6, 7, 10 with the lowest chunk whose tag or MAC is wrong.
pub fn read<'a, 'o>(
    r: Reader<'a>,
    from: usize,
    count: usize,
    out: &'o mut [u8],
) -> Result<usize, Refusal>
    ensures { ended (meaning result) out.new ≡ read_kept r.entry.keys r.entry.file.now from count out.old }
{
    read_kept(r.file, r.keys, from, count, out)
}
