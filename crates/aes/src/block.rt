// The cipher of FIPS 197, 5.1, in the 14 rounds of a key of 256 bits, on a block of four words: one word is one column.
ghost use Rattle.std.specs.Prelude.{◌≡◌, ◌<◌, ◌≤◌, ◌+◌, ◌*◌, ◌^◌, length, take, drop, get_or, eqb};
ghost use Rattle.std.specs.Int.Bits.{bit_xor};
ghost use Rattle.octets.specs.Bytes.{same};
ghost use Rattle.octets.specs.Words.{HasBytes, b0, b1, b2, b3};
ghost use Rattle.octets.specs.Xors.{xors};
ghost use Rattle.aes_spec.specs.Field.{mul};
ghost use Rattle.aes_spec.specs.SBox.{sbox};
ghost use Rattle.aes_spec.specs.Cipher.{xor4, add_round_key, mix_columns, shift_rows, sub_bytes, cipher};
ghost use Rattle.aes.specs.Blocks.{state};

use crate::rotate::rotated_sum;
use crate::round_table::RoundTable;
use octets::word::{byte0, byte1, byte2, byte3, join, word_at};

#[derive(Clone, Copy)]
pub struct Block {
    pub a: u32,
    pub b: u32,
    pub c: u32,
    pub d: u32,
}

// A column of a round, of the first byte of a, the second of b, the third of c and the fourth of d, and the key's word k.
// Kept: `aes_inverse::block` has these two for its table; a trait of `RoundTable` and `InverseRoundTable` would carry the four rows of each as ghost members, and is longer than both.
fn column(t: &RoundTable, a: u32, b: u32, c: u32, d: u32, k: u32) -> u32
    ensures { HasBytes result
        (bit_xor (xor4 (mul 2 (sbox (b0 a))) (mul 3 (sbox (b1 b))) (sbox (b2 c)) (sbox (b3 d))) (b0 k))
        (bit_xor (xor4 (sbox (b0 a)) (mul 2 (sbox (b1 b))) (mul 3 (sbox (b2 c))) (sbox (b3 d))) (b1 k))
        (bit_xor (xor4 (sbox (b0 a)) (sbox (b1 b)) (mul 2 (sbox (b2 c))) (mul 3 (sbox (b3 d)))) (b2 k))
        (bit_xor (xor4 (mul 3 (sbox (b0 a))) (sbox (b1 b)) (sbox (b2 c)) (mul 2 (sbox (b3 d)))) (b3 k)) }
{
    rotated_sum(
        t.entry(byte0(a)),
        t.entry(byte1(b)),
        t.entry(byte2(c)),
        t.entry(byte3(d)),
    ) ^ k
}

// The same in the last round, which has no MixColumns.
fn last_column(t: &RoundTable, a: u32, b: u32, c: u32, d: u32, k: u32) -> u32
    ensures { HasBytes result (bit_xor (sbox (b0 a)) (b0 k)) (bit_xor (sbox (b1 b)) (b1 k)) (bit_xor (sbox (b2 c)) (b2 k)) (bit_xor (sbox (b3 d)) (b3 k)) }
{
    join(
        t.sub(byte0(a)),
        t.sub(byte1(b)),
        t.sub(byte2(c)),
        t.sub(byte3(d)),
    ) ^ k
}

// The exclusive or of two blocks.
// Kept: its callers chain it with calls, where `^` is no plainer; `^` of `gcm::wide` adds words of 64 bits.
pub fn add(x: Block, y: Block) -> Block
    ensures { state result ≡ xors (state x) (state y) }
{
    Block {
        a: x.a ^ y.a,
        b: x.b ^ y.b,
        c: x.c ^ y.c,
        d: x.d ^ y.d,
    }
}

fn difference(x: u32, y: u32) -> u64
    ensures { (result ≡ bit_xor x y) × (result < 2 ^ 32) }
{
    u64::from(x ^ y)
}

// A sum that is 0 where the two blocks are equal, and only there. The time does not depend on where they differ.
// Kept: docs/DECISIONS.md names it: tags are compared with no early exit, which a derived `==` may have; so no number here stands for none.
pub fn differences(x: Block, y: Block) -> u64
    ensures { (result < 2 ^ 34) × (eqb result 0 ≡ same (state x) (state y)) }
{
    difference(x.a, y.a) + difference(x.b, y.b) + difference(x.c, y.c) + difference(x.d, y.d)
}

// Kept: no early exit, as `differences`.
pub fn equal(x: Block, y: Block) -> bool
    ensures { result ≡ same (state x) (state y) }
{
    differences(x, y) == 0
}

// The words of the schedule that the round n adds.
pub fn round_key(w: &[u32], n: usize) -> Block
    requires { 4 * n + 4 ≤ length w.now }
    ensures { (result.a ≡ get_or w.now (4 * n) 0) × (result.b ≡ get_or w.now (4 * n + 1) 0) × (result.c ≡ get_or w.now (4 * n + 2) 0) × (result.d ≡ get_or w.now (4 * n + 3) 0) }
{
    Block {
        a: w[4 * n],
        b: w[4 * n + 1],
        c: w[4 * n + 2],
        d: w[4 * n + 3],
    }
}

// Kept: `aes_inverse::block` takes the columns in the other order; edit `rows_shifted_the_other_way` of both tells them apart.
fn round(t: &RoundTable, w: &[u32], n: usize, x: Block) -> Block
    requires { 4 * n + 4 ≤ length w.now }
    ensures { state result ≡ add_round_key w.now n (mix_columns (shift_rows (sub_bytes (state x)))) }
{
    let k = round_key(w, n);
    Block {
        a: column(t, x.a, x.b, x.c, x.d, k.a),
        b: column(t, x.b, x.c, x.d, x.a, k.b),
        c: column(t, x.c, x.d, x.a, x.b, k.c),
        d: column(t, x.d, x.a, x.b, x.c, k.d),
    }
}

// Kept: `round` with the other column; a closure for the column would have to carry its four rows as a clause once more.
fn last_round(t: &RoundTable, w: &[u32], n: usize, x: Block) -> Block
    requires { 4 * n + 4 ≤ length w.now }
    ensures { state result ≡ add_round_key w.now n (shift_rows (sub_bytes (state x))) }
{
    let k = round_key(w, n);
    Block {
        a: last_column(t, x.a, x.b, x.c, x.d, k.a),
        b: last_column(t, x.b, x.c, x.d, x.a, k.b),
        c: last_column(t, x.c, x.d, x.a, x.b, k.c),
        d: last_column(t, x.d, x.a, x.b, x.c, k.d),
    }
}

// The block enciphered under the key schedule w.
// Kept: t and w apart, with the clause on w, here and below: `gcm::key::Key` holds them for what also hashes; a second struct, made at each call of siv, key_wrap and siv_ctrmac, is no plainer.
pub fn encrypt(t: &RoundTable, w: &[u32], x: Block) -> Block
    requires { 60 ≤ length w.now }
    ensures { state result ≡ cipher 14 w.now (state x) }
{
    let mut s = add(x, round_key(w, 0));
    for n in 1..14 {
        s = round(t, w, n, s);
    }
    last_round(t, w, 14, s)
}

// The block of the 16 bytes of s at a place.
pub fn block_at(s: &[u8], at: usize) -> Block
    requires { at + 16 ≤ length s.now }
    ensures { state result ≡ take 16 (drop at s.now) }
{
    Block {
        a: word_at(s, at),
        b: word_at(s, at + 4),
        c: word_at(s, at + 8),
        d: word_at(s, at + 12),
    }
}

// Kept: `From` for an array is no plainer: each caller would have to name the array's type.
pub fn to_bytes(x: Block) -> [u8; 16]
    ensures { result ≡ state x }
{
    [
        byte0(x.a),
        byte1(x.a),
        byte2(x.a),
        byte3(x.a),
        byte0(x.b),
        byte1(x.b),
        byte2(x.b),
        byte3(x.b),
        byte0(x.c),
        byte1(x.c),
        byte2(x.c),
        byte3(x.c),
        byte0(x.d),
        byte1(x.d),
        byte2(x.d),
        byte3(x.d),
    ]
}
