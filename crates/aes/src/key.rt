// The key expansion of FIPS 197, 5.2, for keys of 256 bits.
ghost use Rattle.std.specs.Prelude.{◌≡◌, ◌++◌, ◌<◌, ◌≤◌, ◌+◌, ◌/◌, length, drop};
ghost use Rattle.octets.specs.Words.{words};
ghost use Rattle.aes_spec.specs.SBox.{sbox_table};
ghost use Rattle.aes_spec.specs.KeyExpansion.{sub_word, rot_word, power_of_x, temp, key_expansion};

use crate::sbox::{sub, table};
use octets::word::{byte0, byte1, byte2, byte3, join, word_at};

// The powers of x that the expansion of 256 bits uses.
const POWERS: [u8; 7] = [0x01, 0x02, 0x04, 0x08, 0x10, 0x20, 0x40];

fn power_of_x(i: usize) -> u8
    requires { i < 7 }
    ensures { result ≡ power_of_x i }
{
    POWERS[i]
}

fn sub_word(s: &[u8; 256], w: u32) -> u32
    requires { s.now ≡ sbox_table }
    ensures { result ≡ sub_word w }
{
    join(
        sub(s, byte0(w)),
        sub(s, byte1(w)),
        sub(s, byte2(w)),
        sub(s, byte3(w)),
    )
}

fn rot_word(w: u32) -> u32
    ensures { result ≡ rot_word w }
{
    join(byte1(w), byte2(w), byte3(w), byte0(w))
}

// What is added to the word eight places before the place i, of the word v before it.
fn temp_word(s: &[u8; 256], i: usize, v: u32) -> u32
    requires s_value { s.now ≡ sbox_table }
    requires le_i { (8 ≤ i) × (i < 64) }
    ensures { result ≡ temp 8 i v }
{
    match i % 8 {
        0 => sub_word(s, rot_word(v)) ^ join(power_of_x(i / 8 - 1), 0, 0, 0),
        4 => sub_word(s, v),
        _ => v,
    }
}

// The key itself: the first eight words.
fn key_words(key: &[u8], w: &mut [u32])
    requires { (length key.now ≡ 32) × (60 ≤ length w.old) }
    ensures { w.new ≡ words 8 key.now ++ drop 8 w.old }
{
    for i in 0..8 {
        w[i] = word_at(key, 4 * i);
    }
}

// Writes the key schedule to the first 60 words of w.
pub fn expand(key: &[u8], w: &mut [u32])
    requires { (length key.now ≡ 32) × (60 ≤ length w.old) }
    ensures { w.new ≡ key_expansion 8 key.now ++ drop 60 w.old }
{
    let s = table();
    key_words(key, w);
    for i in 8..60 {
        w[i] = w[i - 8] ^ temp_word(&s, i, w[i - 1]);
    }
}
