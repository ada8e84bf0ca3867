// What the calls on a vault answer.
#![tactic(auto)]

ghost use Rattle.std.specs.Prelude.{◌≡◌};
ghost use Rattle.octets.specs.Rows.{number};
ghost use Rattle.answer.specs.Meaning.{row};

/// Why a call was refused, by rows 1 to 18 and 20. `Text` has the place where the text is broken, and `Chunk` the number of the chunk. Row 13 is
/// `Segment`, with the place in the label, where a segment is broken, and `Label` otherwise.
#[derive(Clone, Copy)]
pub enum Refusal {
    KeyOrNonceSize,
    DirectoryId,
    Name,
    Length,
    Text(u64),
    Range,
    Room,
    RepeatedNonce,
    Header,
    Chunk(u64),
    HashName,
    SyntheticIv,
    Label,
    Segment(u64),
    Alg,
    Signature,
    Format,
    Combo,
    Threshold,
    CheckValue,
}

/// What is stored for a name. `Plain`: the full name, with its length. `Shortened`: its hash name, with the lengths of the hash name and of the
/// full name.
#[derive(Clone, Copy)]
pub enum StoredName {
    Plain(usize),
    Shortened(usize, usize),
}

/// The number of a refusal's row.
// Kept: the C interface answers rows by number.
pub fn row_number(refusal: Refusal) -> u32
    ensures { result ≡ number (row refusal) }
{
    match refusal {
        Refusal::KeyOrNonceSize => 1,
        Refusal::DirectoryId => 2,
        Refusal::Name => 3,
        Refusal::Length => 4,
        Refusal::Text(_) => 5,
        Refusal::Range => 6,
        Refusal::Room => 7,
        Refusal::RepeatedNonce => 8,
        Refusal::Header => 9,
        Refusal::Chunk(_) => 10,
        Refusal::HashName => 11,
        Refusal::SyntheticIv => 12,
        Refusal::Label => 13,
        Refusal::Segment(_) => 13,
        Refusal::Alg => 14,
        Refusal::Signature => 15,
        Refusal::Format => 16,
        Refusal::Combo => 17,
        Refusal::Threshold => 18,
        Refusal::CheckValue => 20,
    }
}
