// Words from bytes, and bytes from words.
ghost use Rattle.std.specs.Prelude.{◌≡◌, ◌≤◌, ◌+◌, ◌*◌, length, take, drop};
ghost use Rattle.octets.specs.Bytes.{placed};
ghost use Rattle.octets.specs.Words.{words, word_bytes};

use octets::word::{put_word, word_at};

// Writes the 16 words of the block at a place of s.
pub fn load(s: &[u8], at: usize, w: &mut [u32])
    requires { (at + 64 ≤ length s.now) × (16 ≤ length w.old) }
    ensures { take 16 w.new ≡ words 16 (take 64 (drop at s.now)) }
{
    for t in 0..16 {
        w[t] = word_at(s, at + 4 * t);
    }
}

// Writes the bytes of the words w to the part of out that starts at a place.
pub fn write_words(w: &[u32], out: &mut [u8], at: usize)
    requires { at + 4 * length w.now ≤ length out.old }
    ensures { out.new ≡ placed (word_bytes w.now) at out.old }
{
    for i in 0..w.len() {
        put_word(w[i], out, at + 4 * i);
    }
}

// The bytes of N words.
pub fn word_bytes<const N: usize, const D: usize>(w: &[u32; N]) -> [u8; D]
    requires { 4 * N ≡ D }
    ensures { result ≡ word_bytes w.now }
{
    let mut out = [0u8; D];
    write_words(w, &mut out, 0);
    out
}
