// Counter mode with AES-256 and a counter of 32 or of 128 bits, applied from any byte of the text on.
#![tactic(auto)]

pub mod counter;
pub mod in_place;

ghost use Rattle.std.specs.Prelude.{◌≡◌, ◌+◌, ◌≤◌, length, take, drop};
ghost use Rattle.octets.specs.Xors.{xors};
ghost use Rattle.aes_spec.specs.Cipher.{cipher};
ghost use Rattle.aes.specs.Blocks.{state};
ghost use Rattle.ctr.specs.Ctr as spec;

use crate::counter::Counter;
use crate::in_place::{in_block, part};
use aes::block::{Block, encrypt};
use aes::round_table::RoundTable;
use octets::slice::copy_at;
use octets::word::{put_word, word_at};

// Enciphers the counter block c and adds it to src, a whole block, into out, where src itself never stands. The order is that of
// `in_place::whole`, for the sake of speed.
// Kept: not one function with `in_place::whole`: a slice that is lent to be changed cannot be lent to be read beside it.
fn whole(t: &RoundTable, w: &[u32], c: Block, src: &[u8], out: &mut [u8])
    requires in_bounds { (60 ≤ length w.now) × (length src.now ≡ 16) × (length out.old ≡ 16) }
    ensures { out.new ≡ xors src.now (cipher 14 w.now (state c)) }
{
    let a = word_at(src, 0);
    let k = encrypt(t, w, c);
    put_word(a ^ k.a, out, 0);
    put_word(word_at(src, 4) ^ k.b, out, 4);
    put_word(word_at(src, 8) ^ k.c, out, 8);
    put_word(word_at(src, 12) ^ k.d, out, 12);
}

// The same of a block or a part of one: only a part stands in out before it is enciphered.
fn apply(t: &RoundTable, w: &[u32], c: Block, r: usize, src: &[u8], out: &mut [u8])
    requires in_bounds { (60 ≤ length w.now) × (r + length src.now ≤ 16) × (length out.old ≡ length src.now) }
    ensures { out.new ≡ xors src.now (drop r (cipher 14 w.now (state c))) }
{
    if src.len() == 16 {
        whole(t, w, c, src, out);
    } else {
        copy_at(src, out, 0);
        part(t, w, c, r, out);
    }
}

// Writes to out the bytes from lo on of the text that src becomes, as many as out holds. The first counter block is that of
// the first byte of src.
pub fn crypt<C: Counter>(
    t: &RoundTable,
    w: &[u32],
    first: Block,
    src: &[u8],
    lo: usize,
    out: &mut [u8],
)
    requires in_bounds { (60 ≤ length w.now) × (lo + length out.old ≤ length src.now) }
    ensures { out.new ≡ take (length out.old) (drop lo (spec.ctr C.inc (cipher 14 w.now) (state first) src.now)) }
{
    let mut j = 0;
    // Kept: a step is what is left of a block, as in `in_place::crypt_in_place`.
    while j < out.len() {
        let p = lo + j;
        let n = in_block(p % 16, out.len() - j);
        let c = C::after(first, p / 16);
        apply(t, w, c, p % 16, &src[p..p + n], &mut out[j..j + n]);
        j += n;
    }
}
