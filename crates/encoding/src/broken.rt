// Where a base64url text goes wrong: a walk over its characters.
ghost use Rattle.std.specs.Prelude.{◌≡◌, ◌≤◌, ◌<◌, leb, length, get_or, drop};
ghost use Rattle.encoding.specs.Broken as spec;
ghost use Rattle.encoding.specs.Leading.{before};

use crate::alphabet::{ValueTable, value_of};

// The fewest bytes that a text can stand for that begins with n characters of the alphabet, of which the last stands for v.
fn fewest_bytes(n: usize, v: u8) -> usize
    ensures { result ≡ spec.fewest_bytes n v }
{
    let whole = n / 4 * 3;
    if n % 4 == 0 {
        return whole;
    }
    if n % 4 == 1 {
        return whole + 1;
    }
    if n % 4 == 2 {
        if v % 16 == 0 {
            return whole + 1;
        }
        return whole + 2;
    }
    if v % 4 == 0 {
        return whole + 2;
    }
    whole + 3
}

// May '=' stand at place i, after the character b, in a text of at least `least` bytes?
fn pad_fits(t: &ValueTable, least: usize, i: usize, b: u8) -> bool
    ensures { result ≡ spec.pad_fits least i b }
{
    let whole = i / 4 * 3;
    if i % 4 == 2 {
        if value_of(t, b) % 16 != 0 {
            return false;
        }
        return least <= whole + 1;
    }
    if i % 4 != 3 {
        return false;
    }
    if b == b'=' {
        return true;
    }
    if value_of(t, b) % 4 != 0 {
        return false;
    }
    least <= whole + 2
}

// Kept: 0 before the first, as `before` of specs/Leading: an Option would be made and taken apart at each character.
// The character before place i, and 0 before the first.
fn character_before(text: &[u8], i: usize) -> u8
    requires { i ≤ length text.now }
    ensures { result ≡ before text.now i }
{
    if i == 0 {
        return 0;
    }
    text[i - 1]
}

// May the character at place i stand there, in a text of at least `least` and at most `most` bytes?
fn fits(t: &ValueTable, text: &[u8], i: usize, padded: bool, least: usize, most: usize) -> bool
    requires i_in_bounds { i < length text.now }
    ensures { result ≡ spec.fits padded least (λ n. leb n most) i (before text.now i) (get_or text.now i 0) }
{
    let b = character_before(text, i);
    let v = value_of(t, text[i]);
    if v < 64 {
        if b == b'=' {
            return false;
        }
        return fewest_bytes(i + 1, v) <= most;
    }
    if !padded {
        return false;
    }
    if text[i] != b'=' {
        return false;
    }
    pad_fits(t, least, i, b)
}

/// The first place, from `from` on, of a character that may not stand where it does, or the length: in a text of at least `least` and at most
/// `most` bytes.
pub fn stop_from(
    t: &ValueTable,
    text: &[u8],
    from: usize,
    padded: bool,
    least: usize,
    most: usize,
) -> usize
    requires from_in_bounds { from ≤ length text.now }
    ensures { result ≡ spec.stop_from padded least (λ n. leb n most) from (before text.now from) (drop from text.now) }
{
    for i in from..text.len() {
        if !fits(t, text, i, padded, least, most) {
            return i;
        }
    }
    text.len()
}
