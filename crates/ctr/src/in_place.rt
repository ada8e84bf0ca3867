// Counter mode in place: the text becomes what it is enciphered or deciphered to.
ghost use Rattle.std.specs.Prelude.{◌≡◌, ◌+◌, ◌<◌, ◌≤◌, length, drop};
ghost use Rattle.octets.specs.Xors.{xors};
ghost use Rattle.aes_spec.specs.Cipher.{cipher};
ghost use Rattle.aes.specs.Blocks.{state};
ghost use Rattle.ctr.specs.Ctr as spec;

use crate::counter::Counter;
use aes::block::{Block, encrypt, to_bytes};
use aes::round_table::RoundTable;
use octets::slice::xor_into;
use octets::word::{put_word, word_at};

// How many of the bytes that are left lie in the same block as its byte r.
pub(crate) fn in_block(r: usize, left: usize) -> usize
    requires { (r < 16) × (0 < left) }
    ensures { (0 < result) × (result ≤ left) × (r + result ≤ 16) }
{
    left.min(16 - r)
}

// Enciphers the counter block c and adds it to a whole block. The first word is read before, so that it is there when it is
// wanted, and each word is written as soon as it is made: the compiler then stores words, and not bytes.
// Kept: the clause on w, here and below: see `aes::block::encrypt`.
fn whole(t: &RoundTable, w: &[u32], c: Block, text: &mut [u8])
    requires in_bounds { (60 ≤ length w.now) × (length text.old ≡ 16) }
    ensures { text.new ≡ xors text.old (cipher 14 w.now (state c)) }
{
    let a = word_at(text, 0);
    let k = encrypt(t, w, c);
    put_word(a ^ k.a, text, 0);
    put_word(word_at(text, 4) ^ k.b, text, 4);
    put_word(word_at(text, 8) ^ k.c, text, 8);
    put_word(word_at(text, 12) ^ k.d, text, 12);
}

// Enciphers the counter block c and adds it to a part of a block, whose first byte is the block's byte r.
pub(crate) fn part(t: &RoundTable, w: &[u32], c: Block, r: usize, text: &mut [u8])
    requires in_bounds { (60 ≤ length w.now) × (r + length text.old ≤ 16) }
    ensures { text.new ≡ xors text.old (drop r (cipher 14 w.now (state c))) }
{
    let bytes = to_bytes(encrypt(t, w, c));
    xor_into(&bytes[r..], text);
}

// The same of a block or a part of one.
fn apply(t: &RoundTable, w: &[u32], c: Block, r: usize, text: &mut [u8])
    requires in_bounds { (60 ≤ length w.now) × (r + length text.old ≤ 16) }
    ensures { text.new ≡ xors text.old (drop r (cipher 14 w.now (state c))) }
{
    if text.len() == 16 {
        whole(t, w, c, text);
    } else {
        part(t, w, c, r, text);
    }
}

// The first counter block is that of the first byte of the text.
pub fn crypt_in_place<C: Counter>(t: &RoundTable, w: &[u32], first: Block, text: &mut [u8])
    requires in_bounds { 60 ≤ length w.now }
    ensures { text.new ≡ spec.ctr C.inc (cipher 14 w.now) (state first) text.old }
{
    let mut j = 0;
    // Kept: a step is what is left of a block, and the last one may be shorter than 16.
    while j < text.len() {
        let e = j + in_block(j % 16, text.len() - j);
        let c = C::after(first, j / 16);
        apply(t, w, c, j % 16, &mut text[j..e]);
        j = e;
    }
}
