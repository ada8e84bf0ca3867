// S2V (RFC 5297, 2.4) of a cleartext, with no associated data or with one string of it, without copying either.
ghost use Rattle.std.specs.Prelude.{◌≡◌, [], ◌∷◌, ◌++◌, ◌≤◌, length, option_copied};
ghost use Rattle.aes_spec.specs.Cipher.{cipher};
ghost use Rattle.aes.specs.Blocks.{state};
ghost use Rattle.siv.specs.Cmac.{cmac};
ghost use Rattle.siv.specs.Siv as spec;
ghost use Rattle.siv.specs.Pieces.{pieces};

use crate::cmac::{chain, cmac, cmac_from, double, padded, zeros};
use aes::block::{Block, add, to_bytes};
use aes::round_table::RoundTable;
use octets::slice::{copy_at, xor_into};

// Writes s to out, with d added to its last 16 bytes.
fn xor_end(d: Block, s: &[u8], out: &mut [u8])
    requires { (16 ≤ length s.now) × (length out.old ≡ length s.now) }
    ensures { out.new ≡ spec.xorend s.now (state d) }
{
    let lo = s.len() - 16;
    copy_at(s, out, 0);
    xor_into(&to_bytes(d), &mut out[lo..]);
}

// The end of S2V over a last string of 16 bytes or more, from d on. Of the string only the end that d reaches is copied.
fn long_end(t: &RoundTable, w: &[u32], d: Block, s: &[u8]) -> Block
    requires in_bounds { (60 ≤ length w.now) × (16 ≤ length s.now) }
    ensures { state result ≡ cmac (cipher 14 w.now) (spec.xorend s.now (state d)) }
{
    let k = s.len() / 16 - 1;
    let at = 16 * k;
    let n = s.len() - at;
    // Kept: a buffer of the greatest size and the length beside it: no heap.
    let mut tail = [0u8; 32];
    xor_end(d, &s[at..], &mut tail[..n]);
    cmac_from(t, w, chain(t, w, zeros(), s, k), &tail[..n])
}

// The end of S2V over the last string, from d on.
fn end(t: &RoundTable, w: &[u32], d: Block, s: &[u8]) -> Block
    requires in_bounds { 60 ≤ length w.now }
    ensures { state result ≡ spec.s2v_last (cipher 14 w.now) (state d) s.now }
{
    if 16 <= s.len() {
        return long_end(t, w, d, s);
    }
    cmac(t, w, &to_bytes(add(double(d), padded(s))))
}

// S2V of the cleartext s, with the string ad of associated data if it is given.
pub fn s2v(t: &RoundTable, w: &[u32], ad: Option<&[u8]>, s: &[u8]) -> Block
    requires in_bounds { 60 ≤ length w.now }
    ensures { state result ≡ spec.s2v (cipher 14 w.now) (pieces (option_copied ad.entry) ++ (s.now ∷ [])) }
{
    let d = cmac(t, w, &to_bytes(zeros()));
    match ad {
        Some(ad) => end(t, w, add(double(d), cmac(t, w, ad)), s),
        None => end(t, w, d, s),
    }
}
