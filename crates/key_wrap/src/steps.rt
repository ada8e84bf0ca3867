// The steps of RFC 3394, 2.2.1 and 2.2.2, forwards and back.
ghost use Rattle.std.specs.Prelude.{◌≡◌, ◌≤◌, length};
ghost use Rattle.octets.specs.Words.{word_bytes};
ghost use Rattle.aes_spec.specs.Cipher.{cipher};
ghost use Rattle.aes_inverse.specs.InverseCipher.{inv_cipher};
ghost use Rattle.aes_inverse.specs.RoundKeys.{UnmixedKeys};
ghost use Rattle.key_wrap.specs.KeyWrap as spec;

use crate::registers::{Registers, begin, read};
use aes::block::{Block, encrypt};
use aes::round_table::RoundTable;
use aes_inverse::block::decrypt;
use aes_inverse::round_table::InverseRoundTable;

// Step n, which the RFC calls t.
// Kept: the clause on w, here and below: see `aes::block::encrypt`.
fn step(t: &RoundTable, w: &[u32], n: u32, x: &mut Registers)
    requires in_bounds { 60 ≤ length w.now }
    ensures { word_bytes x.new ≡ spec.wrap_step (cipher 14 w.now) n (word_bytes x.old) }
{
    let [a, b, c, d, e, f, g, h, i, j] = *x;
    let y = encrypt(t, w, Block { a, b, c, d });
    *x = [y.a, y.b ^ n, e, f, g, h, i, j, y.c, y.d];
}

// Step n back.
fn step_back(t: &InverseRoundTable, w: &[u32], v: &[u32], n: u32, x: &mut Registers)
    requires in_bounds { (60 ≤ length w.now) × (60 ≤ length v.now) }
    requires unmixed_keys { UnmixedKeys w.now v.now 56 }
    ensures { word_bytes x.new ≡ spec.unwrap_step (inv_cipher 14 w.now) n (word_bytes x.old) }
{
    let [a, b, c, d, e, f, g, h, i, j] = *x;
    let last = Block {
        a,
        b: b ^ n,
        c: i,
        d: j,
    };
    let y = decrypt(t, w, v, last);
    *x = [y.a, y.b, y.c, y.d, c, d, e, f, g, h];
}

// The key wrapped, with the round table t and the key schedule w.
pub fn wrapped(t: &RoundTable, w: &[u32], key: &[u8]) -> Registers
    requires in_bounds { 60 ≤ length w.now }
    requires key_len { length key.now ≡ 32 }
    ensures { word_bytes result ≡ spec.wrap (cipher 14 w.now) key.now }
{
    let mut x = begin(key);
    for n in 1..25 {
        step(t, w, n, &mut x);
    }
    x
}

// The registers of a wrapped key after all steps back, with the table t of the inverse rounds, the key schedule w and its unmixed round keys v.
pub fn unwrapped(t: &InverseRoundTable, w: &[u32], v: &[u32], s: &[u8]) -> Registers
    requires in_bounds { (60 ≤ length w.now) × (60 ≤ length v.now) }
    requires unmixed_keys { UnmixedKeys w.now v.now 56 }
    requires s_len { length s.now ≡ 40 }
    ensures { word_bytes result ≡ spec.unwrapped (inv_cipher 14 w.now) s.now }
{
    let mut x = read(s);
    for n in (1..25).rev() {
        step_back(t, w, v, n, &mut x);
    }
    x
}
