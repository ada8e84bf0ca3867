// The text form of a full name: the length of its name, or the place where it is broken.
ghost use Rattle.std.specs.Prelude.{◌≡◌, true, cond, ℕ, ◌≤◌, leb};
ghost use Rattle.encoding.specs.Broken.{within};
ghost use Rattle.encoding.specs.Leading.{Leading};
ghost use Rattle.name_spec.specs.Names.{text_right, name_length};
ghost use Rattle.name_spec.specs.Places as spec;
ghost use Rattle.name_texts.specs.Forms.{form_of};

use crate::checks::NAME_LIMIT;
use encoding::alphabet::{ValueTable, leading, values};
use encoding::base64url::{BrokenAt, measure_from};
use encoding::broken::stop_from;

// The fewest bytes of a sealed name.
const LEAST: usize = 17;

// Kept: the clause `leading`, here and below: `measure_from` of `encoding` takes the number itself.
// How many bytes the name has in a text that begins with n characters of the alphabet, if the text's form is right.
fn name_length(t: &ValueTable, text: &[u8], n: usize) -> Option<usize>
    requires leading { Leading n text.now }
    ensures { result ≡ cond (text_right text.now) (Some (name_length text.now)) None }
{
    let stem = text.strip_suffix(b".c9r")?;
    let m = measure_from(t, stem, n, true).ok()?;
    if m < LEAST {
        return None;
    }
    if NAME_LIMIT + 16 < m {
        return None;
    }
    Some(m - 16)
}

// The most bytes that a stem stands for, where a full name has at most `most` characters.
fn stem_limit(most: usize) -> usize
    requires { 4 ≤ most }
    ensures { (n : ℕ) → leb n result ≡ spec.stem_allows most n }
{
    ((most - 4) / 4 * 3).min(NAME_LIMIT + 16)
}

// How many characters of a text, from its start on, are those of the end.
fn common(text: &[u8], end: &[u8]) -> usize
    ensures { result ≡ spec.common text.now end.now }
{
    text.iter()
        .zip(end)
        .position(|(a, b)| a != b)
        .unwrap_or(text.len().min(end.len()))
}

// Is a text, which begins with n characters of the alphabet, a stem of at most `limit` bytes?
fn whole_stem(t: &ValueTable, text: &[u8], n: usize, limit: usize) -> bool
    requires leading { Leading n text.now }
    ensures { result ≡ within true 17 (λ k. leb k limit) text.now }
{
    match measure_from(t, text, n, true) {
        Ok(m) => LEAST <= m && m <= limit,
        Err(_) => false,
    }
}

// Where a broken text, which begins with n characters of the alphabet, is so. As many of these as whole groups of the longest stem have are passed at once.
fn broken_at(t: &ValueTable, text: &[u8], n: usize, most: usize) -> usize
    requires leading { Leading n text.now }
    requires le_most { 4 ≤ most }
    ensures { result ≡ spec.text_broken_at most text.now }
{
    let limit = stem_limit(most);
    let from = n.min(limit / 3 * 4);
    let j = stop_from(t, text, from, true, LEAST, limit);
    let k = n.min(j);
    if !whole_stem(t, &text[..j], k, limit) {
        return j;
    }
    j + common(&text[j..], b".c9r")
}

/// The length of the name in a text in the text form, of at most `most` characters, or the place where the text is broken.
pub fn text_form(text: &[u8], most: usize) -> Result<usize, BrokenAt>
    requires { 4 ≤ most }
    ensures { result ≡ form_of most text.now }
{
    let t = values();
    let n = leading(&t, text);
    match name_length(&t, text, n) {
        Some(m) if text.len() <= most => Ok(m),
        _ => Err(BrokenAt(broken_at(&t, text, n, most))),
    }
}
