// The inverse cipher of FIPS 197, 5.3, in the 14 rounds of a key of 256 bits, on a block of four words: one word is one column. In the rounds 13 to 1
// InvMixColumns comes before AddRoundKey, whose round keys went through it too (5.3.5).
ghost use Rattle.std.specs.Prelude.{◌≡◌, List, ℕ, ◌≤◌, length};
ghost use Rattle.std.specs.Int.Bits.{bit_xor};
ghost use Rattle.octets.specs.Words.{HasBytes, b0, b1, b2, b3};
ghost use Rattle.aes_spec.specs.Field.{mul};
ghost use Rattle.aes_spec.specs.Cipher.{xor4, add_round_key};
ghost use Rattle.aes.specs.Blocks.{state};
ghost use Rattle.aes_inverse.specs.InverseSBox.{inverse_sbox};
ghost use Rattle.aes_inverse.specs.InverseCipher.{inv_shift_rows, inv_sub_bytes, inv_mix_columns, inv_cipher};
ghost use Rattle.aes_inverse.specs.RoundKeys.{UnmixedKeys};

use crate::round_table::InverseRoundTable;
use aes::block::{Block, add, round_key};
use aes::rotate::rotated_sum;
use octets::word::{byte0, byte1, byte2, byte3, join};

// A column of a round, of the first byte of a, the second of b, the third of c and the fourth of d, and the key's word k.
// Kept: `aes::block` has these two for its table; a trait of `RoundTable` and `InverseRoundTable` would carry the four rows of each as ghost members, and is longer than both.
fn column(t: &InverseRoundTable, a: u32, b: u32, c: u32, d: u32, k: u32) -> u32
    ensures { HasBytes result
        (bit_xor (xor4 (mul 0x0e (inverse_sbox (b0 a))) (mul 0x0b (inverse_sbox (b1 b))) (mul 0x0d (inverse_sbox (b2 c))) (mul 0x09 (inverse_sbox (b3 d)))) (b0 k))
        (bit_xor (xor4 (mul 0x09 (inverse_sbox (b0 a))) (mul 0x0e (inverse_sbox (b1 b))) (mul 0x0b (inverse_sbox (b2 c))) (mul 0x0d (inverse_sbox (b3 d)))) (b1 k))
        (bit_xor (xor4 (mul 0x0d (inverse_sbox (b0 a))) (mul 0x09 (inverse_sbox (b1 b))) (mul 0x0e (inverse_sbox (b2 c))) (mul 0x0b (inverse_sbox (b3 d)))) (b2 k))
        (bit_xor (xor4 (mul 0x0b (inverse_sbox (b0 a))) (mul 0x0d (inverse_sbox (b1 b))) (mul 0x09 (inverse_sbox (b2 c))) (mul 0x0e (inverse_sbox (b3 d)))) (b3 k)) }
{
    rotated_sum(
        t.entry(byte0(a)),
        t.entry(byte1(b)),
        t.entry(byte2(c)),
        t.entry(byte3(d)),
    ) ^ k
}

// The same in the last round, which has no InvMixColumns.
fn last_column(t: &InverseRoundTable, a: u32, b: u32, c: u32, d: u32, k: u32) -> u32
    ensures { HasBytes result (bit_xor (inverse_sbox (b0 a)) (b0 k)) (bit_xor (inverse_sbox (b1 b)) (b1 k)) (bit_xor (inverse_sbox (b2 c)) (b2 k)) (bit_xor (inverse_sbox (b3 d)) (b3 k)) }
{
    join(
        t.sub(byte0(a)),
        t.sub(byte1(b)),
        t.sub(byte2(c)),
        t.sub(byte3(d)),
    ) ^ k
}

// The round n, from 13 to 1, for every key schedule w of which v has the round keys under InvMixColumns.
// Kept: `aes::block` takes the columns in the other order; edit `rows_shifted_the_other_way` of both tells them apart.
fn round(t: &InverseRoundTable, v: &[u32], n: usize, x: Block) -> Block
    requires le_n { (1 ≤ n) × (n ≤ 13) × (56 ≤ length v.now) }
    ensures { (w : List ℕ) → UnmixedKeys w v.now 56 → state result ≡ inv_mix_columns (add_round_key w n (inv_sub_bytes (inv_shift_rows (state x)))) }
{
    let k = round_key(v, n);
    Block {
        a: column(t, x.a, x.d, x.c, x.b, k.a),
        b: column(t, x.b, x.a, x.d, x.c, k.b),
        c: column(t, x.c, x.b, x.a, x.d, k.c),
        d: column(t, x.d, x.c, x.b, x.a, k.d),
    }
}

// The last round, with the first round key of the schedule itself.
// Kept: `round` with the other column; a closure for the column would have to carry its four rows as a clause once more.
fn last_round(t: &InverseRoundTable, w: &[u32], x: Block) -> Block
    requires in_bounds { 4 ≤ length w.now }
    ensures { state result ≡ add_round_key w.now 0 (inv_sub_bytes (inv_shift_rows (state x))) }
{
    let k = round_key(w, 0);
    Block {
        a: last_column(t, x.a, x.d, x.c, x.b, k.a),
        b: last_column(t, x.b, x.a, x.d, x.c, k.b),
        c: last_column(t, x.c, x.b, x.a, x.d, k.c),
        d: last_column(t, x.d, x.c, x.b, x.a, k.d),
    }
}

// The block deciphered under the key schedule w, of which v has the round keys 1 to 13 under InvMixColumns.
// Kept: the clauses on w and v: see `aes::block::encrypt`.
pub fn decrypt(t: &InverseRoundTable, w: &[u32], v: &[u32], x: Block) -> Block
    requires in_bounds { (60 ≤ length w.now) × (60 ≤ length v.now) }
    requires unmixed_keys { UnmixedKeys w.now v.now 56 }
    ensures { state result ≡ inv_cipher 14 w.now (state x) }
{
    let mut s = add(x, round_key(w, 14));
    // Counted up for speed: with `(1..14).rev()` a block took 8 % longer.
    for i in 0..13 {
        s = round(t, v, 13 - i, s);
    }
    last_round(t, w, s)
}
