// The line that tells how the check of a vault file ends.
#![tactic(auto)]

mod decimal;
mod line;

ghost use Rattle.std.specs.Prelude.{◌≡◌, ◌≤◌, length};
ghost use Rattle.octets.specs.Rows.{ended};
ghost use Rattle.answer.specs.Meaning.{meaning};
ghost use Rattle.check_line.specs.Check.{check_vault, longest, checked, check};

use crate::line::write_line;
use answer::Refusal;
use file_read::open_file;
use vault::record::{Combo, make_vault};

// The threshold of the record, which the opening of a file does not look at.
const THRESHOLD: u32 = 220;

// Opens the file behind its keys, in SIV_GCM, into room.
fn check_vault(input: &[u8], room: &mut [u8]) -> Result<usize, Refusal>
    ensures { ended (meaning result) room.new ≡ check_vault input.now room.old }
{
    if input.len() < 64 {
        return Err(Refusal::KeyOrNonceSize);
    }
    if input.len() > 65536 {
        return Err(Refusal::Length);
    }
    let enc = &input[..32];
    let mac = &input[32..64];
    let file = &input[64..];
    let made = make_vault(enc, mac, Combo::SivGcm, THRESHOLD);
    let v = made.vault;
    open_file(v, file, room)
}

/// Checks the input, the encryption master key, the MAC master key and a file: writes the line that tells the outcome, and returns its length.
/// The cleartext goes into room, which is at least as long as the input; line has the 25 bytes of the longest line.
pub fn check_line(input: &[u8], room: &mut [u8], line: &mut [u8]) -> usize
    requires { (length input.now ≤ length room.old) × (longest ≤ length line.old) }
    ensures { checked result room.new line.new ≡ check input.now room.old line.old }
{
    let answer = check_vault(input, room);
    write_line(answer, line)
}
