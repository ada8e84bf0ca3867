// CMAC (SP 800-38B) of a slice, and of the end of one. Each function is lent the round table t and the key schedule w.
ghost use Rattle.std.specs.Prelude.{◌≡◌, ◌<◌, ◌≤◌, ◌*◌, length, replicate};
ghost use Rattle.aes_spec.specs.Cipher.{cipher};
ghost use Rattle.aes.specs.Blocks.{state};
ghost use Rattle.siv.specs.Cmac as spec;

use aes::block::{Block, add, block_at, encrypt};
use aes::round_table::RoundTable;
use octets::slice::copy_at;

// The block times x in the field of 2^128 elements.
pub fn double(x: Block) -> Block
    ensures { state result ≡ spec.dbl (state x) }
{
    Block {
        a: x.a % 2147483648 * 2 + x.b / 2147483648,
        b: x.b % 2147483648 * 2 + x.c / 2147483648,
        c: x.c % 2147483648 * 2 + x.d / 2147483648,
        d: (x.d % 2147483648 * 2) ^ (x.a / 2147483648 * 135),
    }
}

pub fn zeros() -> Block
    ensures { state result ≡ replicate 16 0 }
{
    Block {
        a: 0,
        b: 0,
        c: 0,
        d: 0,
    }
}

// A block that is not full, filled up with a bit 1 and then zeros.
pub fn padded(s: &[u8]) -> Block
    requires { length s.now < 16 }
    ensures { state result ≡ spec.pad s.now }
{
    let mut buffer = [0u8; 16];
    let n = s.len();
    buffer[n] = 128;
    copy_at(s, &mut buffer, 0);
    block_at(&buffer, 0)
}

// The chain after n blocks of s, from c on.
// Kept: t and w apart, with the clause on w, here and in `s2v` and `seal`: see `aes::block::encrypt`.
pub fn chain(t: &RoundTable, w: &[u32], c: Block, s: &[u8], n: usize) -> Block
    requires in_bounds { (60 ≤ length w.now) × (16 * n ≤ length s.now) }
    ensures { state result ≡ spec.chain (cipher 14 w.now) (state c) s.now n }
{
    let mut x = c;
    for i in 0..n {
        x = encrypt(t, w, add(x, block_at(s, 16 * i)));
    }
    x
}

// The last block of a message, with its subkey added.
fn last_block(t: &RoundTable, w: &[u32], s: &[u8]) -> Block
    requires in_bounds { (60 ≤ length w.now) × (length s.now ≤ 16) }
    ensures { state result ≡ spec.last_block (cipher 14 w.now) s.now }
{
    let k = double(encrypt(t, w, zeros()));
    if s.len() == 16 {
        return add(k, block_at(s, 0));
    }
    add(double(k), padded(s))
}

// CMAC to the end of a message that goes on with s, from c on.
pub fn cmac_from(t: &RoundTable, w: &[u32], c: Block, s: &[u8]) -> Block
    requires in_bounds { 60 ≤ length w.now }
    ensures { state result ≡ spec.cmac_from (cipher 14 w.now) (state c) s.now }
{
    if s.len() == 0 {
        return encrypt(t, w, add(c, last_block(t, w, s)));
    }
    let n = (s.len() - 1) / 16;
    let x = chain(t, w, c, s, n);
    let at = 16 * n;
    encrypt(t, w, add(x, last_block(t, w, &s[at..])))
}

pub fn cmac(t: &RoundTable, w: &[u32], s: &[u8]) -> Block
    requires in_bounds { 60 ≤ length w.now }
    ensures { state result ≡ spec.cmac (cipher 14 w.now) s.now }
{
    cmac_from(t, w, zeros(), s)
}
