// A word and its bytes, the first byte the highest.
ghost use Rattle.std.specs.Prelude.{◌≡◌, ◌∷◌, [], ◌≤◌, ◌+◌, length, get_or};
ghost use Rattle.octets.specs.BigEndian.{int, be};
ghost use Rattle.octets.specs.Bytes.{placed};
ghost use Rattle.octets.specs.Words.{HasBytes, word, word_at, b0, b1, b2, b3, word_bytes};

use crate::slice::copy_at;

// Kept: `join`, `byte0` to `byte3` and `put_word` are std's conversions in the words of the specs, `word`, `b0` to `b3` and `placed`.
pub fn join(a: u8, b: u8, c: u8, d: u8) -> u32
    ensures value { result ≡ word a b c d }
    ensures has_bytes { HasBytes result a b c d }
{
    u32::from_be_bytes([a, b, c, d])
}

pub fn byte0(w: u32) -> u8
    ensures { result ≡ b0 w }
{
    w.to_be_bytes()[0]
}

pub fn byte1(w: u32) -> u8
    ensures { result ≡ b1 w }
{
    w.to_be_bytes()[1]
}

pub fn byte2(w: u32) -> u8
    ensures { result ≡ b2 w }
{
    w.to_be_bytes()[2]
}

pub fn byte3(w: u32) -> u8
    ensures { result ≡ b3 w }
{
    w.to_be_bytes()[3]
}

// The word of the four bytes of s at a place.
pub fn word_at(s: &[u8], at: usize) -> u32
    requires { at + 4 ≤ length s.now }
    ensures value { result ≡ word_at s.now at }
    ensures has_bytes { HasBytes result (get_or s.now at 0) (get_or s.now (at + 1) 0) (get_or s.now (at + 2) 0) (get_or s.now (at + 3) 0) }
{
    join(s[at], s[at + 1], s[at + 2], s[at + 3])
}

// The number that eight bytes stand for.
pub fn join_eight(bytes: [u8; 8]) -> u64
    ensures { result ≡ int bytes }
{
    u64::from_be_bytes(bytes)
}

// The eight bytes of a number, the highest first.
pub fn split_eight(number: u64) -> [u8; 8]
    ensures { result ≡ be 8 number }
{
    number.to_be_bytes()
}

// Writes the four bytes of a word to out at a place.
pub fn put_word(w: u32, out: &mut [u8], at: usize)
    requires { at + 4 ≤ length out.old }
    ensures { out.new ≡ placed (word_bytes (w ∷ [])) at out.old }
{
    copy_at(&w.to_be_bytes(), out, at);
}
