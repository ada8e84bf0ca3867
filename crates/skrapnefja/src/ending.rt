// How a call ends: what it answers is written to the numbers it was lent, and the row is returned.
// Kept: rows and combos as numbers, and what is written to lent numbers: the C interface.
ghost use Rattle.std.specs.Prelude.{◌≡◌};
ghost use Rattle.octets.specs.Rows.{number};
ghost use Rattle.answer.specs.Meaning.{row, meaning, header_meaning, name_meaning};
ghost use Rattle.label.specs.Opened.{label_meaning};
ghost use Rattle.skrapnefja.specs.Results.{written_after, reserved_after, full_length_after, at_after, combo_after, threshold_after};

use answer::{Refusal, StoredName, row_number};
use label::open::LabelSays;
use octets::word::join_eight;

// Ends a call that answers a length.
pub fn end(answer: Result<usize, Refusal>, written: &mut u64) -> u32
    ensures { (result ≡ number (meaning answer)) × (written.new ≡ written_after (meaning answer) written.old) }
{
    match answer {
        Ok(n) => {
            *written = n as u64;
            0
        }
        Err(refusal) => row_number(refusal),
    }
}

// Writes the number that a refusal bears: that of a chunk, or a place in a text or a label.
fn tell_number(refusal: Refusal, at: &mut u64)
    ensures { at.new ≡ at_after (row refusal) at.old }
{
    if let Refusal::Text(i) | Refusal::Chunk(i) | Refusal::Segment(i) = refusal {
        *at = i;
    }
}

// Ends a call that answers a length, and whose refusals may bear a number.
pub fn end_at(answer: Result<usize, Refusal>, written: &mut u64, at: &mut u64) -> u32
    ensures { (result ≡ number (meaning answer)) × (written.new ≡ written_after (meaning answer) written.old) × (at.new ≡ at_after (meaning answer) at.old) }
{
    if let Err(refusal) = answer {
        tell_number(refusal, at);
    }
    end(answer, written)
}

// Ends the opening of a header, whose reserved bytes are told as a number, the first byte the highest.
pub fn end_header(opened: Result<[u8; 8], Refusal>, written: &mut u64, reserved: &mut u64) -> u32
    ensures { (result ≡ number (header_meaning opened)) × (written.new ≡ written_after (header_meaning opened) written.old) × (reserved.new ≡ reserved_after (header_meaning opened) reserved.old) }
{
    match opened {
        Ok(bytes) => {
            *reserved = join_eight(bytes);
            end(Ok(32), written)
        }
        Err(refusal) => end(Err(refusal), written),
    }
}

// Ends the writing of a name.
pub fn end_name(
    answer: Result<StoredName, Refusal>,
    written: &mut u64,
    full_length: &mut u64,
) -> u32
    ensures { (result ≡ number (name_meaning answer)) × (written.new ≡ written_after (name_meaning answer) written.old) × (full_length.new ≡ full_length_after (name_meaning answer) full_length.old) }
{
    match answer {
        Ok(StoredName::Plain(n)) => {
            let row = end(Ok(n), written);
            *full_length = 0;
            row
        }
        Ok(StoredName::Shortened(n, full)) => {
            let row = end(Ok(n), written);
            *full_length = full as u64;
            row
        }
        Err(refusal) => end(Err(refusal), written),
    }
}

// Ends the opening of a label.
pub fn end_label(
    answer: Result<LabelSays, Refusal>,
    combo: &mut u32,
    threshold: &mut u32,
    at: &mut u64,
) -> u32
    ensures { (result ≡ number (label_meaning answer)) × (combo.new ≡ combo_after (label_meaning answer) combo.old) × (threshold.new ≡ threshold_after (label_meaning answer) threshold.old) × (at.new ≡ at_after (label_meaning answer) at.old) }
{
    match answer {
        Ok(says) => {
            *combo = says.combo;
            *threshold = says.threshold;
            0
        }
        Err(refusal) => {
            tell_number(refusal, at);
            row_number(refusal)
        }
    }
}
