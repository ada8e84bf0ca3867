// RFC 4648, section 5: base64url, padded and not.
ghost use Rattle.std.specs.Prelude.{◌≡◌, true, false, [], ◌∷◌, map, ◌<◌, ◌≤◌, ◌+◌, ◌*◌, ◌/◌, ◌^◌, length, take};
ghost use Rattle.octets.specs.Bytes.{placed};
ghost use Rattle.encoding.specs.Base64url as spec;
ghost use Rattle.encoding.specs.Leading.{Leading};
ghost use Rattle.encoding.specs.Measures.{measure_of};

use crate::alphabet::{
    LetterTable, ValueTable, leading, letter_of, letters, value_at, value_of, values,
};
use crate::broken::stop_from;

/// The place where a text is broken: the first character at which no well-formed text can go on, or the length where it only ends too early.
#[derive(Clone, Copy)]
pub struct BrokenAt(pub usize);

// How many characters n bytes are encoded to.
// Kept: `padded`, here and below, is the text's form, by which the definitions of specs/Base64url go, and no choice of what to run.
pub fn encoded_length(n: usize, padded: bool) -> usize
    requires { n < 2 ^ 63 }
    ensures { result ≡ spec.encoded_length padded n }
{
    if padded {
        return (n + 2) / 3 * 4;
    }
    n / 3 * 4 + (n % 3 * 4 + 2) / 3
}

// Writes the text of three bytes to the front of out.
fn encode_three(t: &LetterTable, a: u8, b: u8, c: u8, out: &mut [u8])
    requires in_bounds { 4 ≤ length out.old }
    ensures { out.new ≡ placed (spec.encode false (a ∷ b ∷ c ∷ [])) 0 out.old }
{
    out[0] = letter_of(&t.bytes, a / 4);
    out[1] = letter_of(&t.bytes, a % 4 * 16 + b / 16);
    out[2] = letter_of(&t.bytes, b % 16 * 4 + c / 64);
    out[3] = letter_of(&t.bytes, c % 64);
}

// Kept: one function for each number of bytes: RFC 4648 has other letters and another end for each, so that one for all branches by it at each store.
// Writes the text of the last two bytes to the front of out.
fn encode_two(t: &LetterTable, a: u8, b: u8, padded: bool, out: &mut [u8])
    requires in_bounds { (3 ≤ length out.old) × (padded ≡ true → 4 ≤ length out.old) }
    ensures { out.new ≡ placed (spec.encode padded (a ∷ b ∷ [])) 0 out.old }
{
    out[0] = letter_of(&t.bytes, a / 4);
    out[1] = letter_of(&t.bytes, a % 4 * 16 + b / 16);
    out[2] = letter_of(&t.bytes, b % 16 * 4);
    if !padded {
        return;
    }
    out[3] = b'=';
}

// Writes the text of the last byte to the front of out.
fn encode_one(t: &LetterTable, a: u8, padded: bool, out: &mut [u8])
    requires in_bounds { (2 ≤ length out.old) × (padded ≡ true → 4 ≤ length out.old) }
    ensures { out.new ≡ placed (spec.encode padded (a ∷ [])) 0 out.old }
{
    out[0] = letter_of(&t.bytes, a / 4);
    out[1] = letter_of(&t.bytes, a % 4 * 16);
    if !padded {
        return;
    }
    out[2] = b'=';
    out[3] = b'=';
}

// Writes the text of the last bytes, fewer than three, to the front of out.
fn encode_end(t: &LetterTable, bytes: &[u8], padded: bool, out: &mut [u8])
    requires bytes_len_bound { (length bytes.now < 3) × (spec.encoded_length padded (length bytes.now) ≤ length out.old) }
    ensures { out.new ≡ placed (spec.encode padded bytes.now) 0 out.old }
{
    if bytes.len() == 0 {
        return;
    }
    if bytes.len() == 1 {
        encode_one(t, bytes[0], padded, out);
        return;
    }
    encode_two(t, bytes[0], bytes[1], padded, out);
}

// Writes the text of the bytes to the front of out.
pub fn encode(bytes: &[u8], padded: bool, out: &mut [u8])
    requires { spec.encoded_length padded (length bytes.now) ≤ length out.old }
    ensures { out.new ≡ placed (spec.encode padded bytes.now) 0 out.old }
{
    let t = letters();
    let n = bytes.len() / 3;
    for i in 0..n {
        let from = 3 * i;
        let at = 4 * i;
        encode_three(
            &t,
            bytes[from],
            bytes[from + 1],
            bytes[from + 2],
            &mut out[at..],
        );
    }
    let from = 3 * n;
    let at = 4 * n;
    encode_end(&t, &bytes[from..], padded, &mut out[at..]);
}

// Does a padded text have a multiple of four characters?
fn whole(text: &[u8], padded: bool) -> bool
    ensures { result ≡ spec.whole padded text.now }
{
    if padded {
        return text.len() % 4 == 0;
    }
    true
}

// How many characters at the end are padding.
fn pad_length(text: &[u8], padded: bool) -> usize
    requires { spec.whole padded text.now ≡ true }
    ensures { (result ≡ spec.pad_length padded text.now) × (result ≤ length text.now) }
{
    let n = text.len();
    if !padded {
        return 0;
    }
    if n == 0 {
        return 0;
    }
    if text[n - 1] != b'=' {
        return 0;
    }
    if text[n - 2] != b'=' {
        return 1;
    }
    2
}

// Are the pad bits of the last characters, fewer than four, zero?
fn canonical_end(t: &ValueTable, text: &[u8]) -> bool
    requires text_len_bound { length text.now < 4 }
    ensures { result ≡ spec.canonical (map spec.value text.now) }
{
    if text.len() == 0 {
        return true;
    }
    if text.len() == 1 {
        return false;
    }
    if text.len() == 2 {
        return value_of(t, text[1]) % 16 == 0;
    }
    value_of(t, text[2]) % 4 == 0
}

// Kept: the clause `leading`, here and in `measure_from`, and no type of the text and its run: docs/DECISIONS.md names `alphabet::leading`, which answers the number.
// Is the text accepted, which begins with n characters of the alphabet?
fn accepted(t: &ValueTable, text: &[u8], n: usize, padded: bool) -> bool
    requires leading { Leading n text.now }
    ensures { result ≡ spec.accepted padded text.now }
{
    if !whole(text, padded) {
        return false;
    }
    if n != text.len() - pad_length(text, padded) {
        return false;
    }
    let last = 4 * (n / 4);
    canonical_end(t, &text[last..n])
}

// How many bytes n characters of the alphabet hold.
pub fn decoded_length(n: usize) -> usize
    ensures { result ≡ n * 3 / 4 }
{
    n / 4 * 3 + n % 4 * 3 / 4
}

// What `check` answers of a text that begins with n characters of the alphabet. A text has no more bytes than characters.
pub fn measure_from(t: &ValueTable, text: &[u8], n: usize, padded: bool) -> Result<usize, BrokenAt>
    requires leading { Leading n text.now }
    ensures { result ≡ measure_of padded text.now }
{
    if accepted(t, text, n, padded) {
        return Ok(decoded_length(n));
    }
    Err(BrokenAt(stop_from(t, text, n, padded, 0, text.len())))
}

// How many bytes the text stands for, or the place where it is broken.
pub fn check(text: &[u8], padded: bool) -> Result<usize, BrokenAt>
    ensures { result ≡ measure_of padded text.now }
{
    let t = values();
    let n = leading(&t, text);
    measure_from(&t, text, n, padded)
}

// Writes the bytes of the first four characters of the text to the front of out.
fn decode_four(t: &ValueTable, text: &[u8], out: &mut [u8])
    requires text_value { spec.known text.now ≡ true }
    requires in_bounds { (4 ≤ length text.now) × (3 ≤ length out.old) }
    ensures { out.new ≡ placed (spec.octets (map spec.value (take 4 text.now))) 0 out.old }
{
    let p = value_at(t, text, 0);
    let q = value_at(t, text, 1);
    let r = value_at(t, text, 2);
    let s = value_at(t, text, 3);
    out[0] = p * 4 + q / 16;
    out[1] = q % 16 * 16 + r / 4;
    out[2] = r % 4 * 64 + s;
}

// Writes the bytes of the last characters, fewer than four, to the front of out.
fn decode_end(t: &ValueTable, text: &[u8], out: &mut [u8])
    requires text_value { spec.known text.now ≡ true }
    requires text_len_bound { (length text.now < 4) × (length text.now * 3 / 4 ≤ length out.old) }
    ensures { out.new ≡ placed (spec.octets (map spec.value text.now)) 0 out.old }
{
    if text.len() < 2 {
        return;
    }
    let p = value_at(t, text, 0);
    let q = value_at(t, text, 1);
    out[0] = p * 4 + q / 16;
    if text.len() == 2 {
        return;
    }
    let r = value_at(t, text, 2);
    out[1] = q % 16 * 16 + r / 4;
}

// Writes the bytes of a text without padding to the front of out.
fn decode_body(text: &[u8], out: &mut [u8])
    requires text_value { spec.known text.now ≡ true }
    requires text_in_bounds { length text.now * 3 / 4 ≤ length out.old }
    ensures { out.new ≡ placed (spec.octets (map spec.value text.now)) 0 out.old }
{
    let t = values();
    let n = text.len() / 4;
    for i in 0..n {
        let from = 4 * i;
        let at = 3 * i;
        decode_four(&t, &text[from..], &mut out[at..]);
    }
    let from = 4 * n;
    let at = 3 * n;
    decode_end(&t, &text[from..], &mut out[at..]);
}

// Writes the bytes of a text that `check` accepts to the front of out.
pub fn decode(text: &[u8], padded: bool, out: &mut [u8])
    requires text_value { spec.accepted padded text.now ≡ true }
    requires text_in_bounds { length (spec.decoded padded text.now) ≤ length out.old }
    ensures { out.new ≡ placed (spec.decoded padded text.now) 0 out.old }
{
    let n = text.len() - pad_length(text, padded);
    decode_body(&text[..n], out);
}
