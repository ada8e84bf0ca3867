// SIV (RFC 5297, 2.6 and 2.7): sealing and opening. Each function is lent the round table t, the key schedule of the MAC key and
// that of the encryption key. A sealed text is the synthetic IV and then the ciphertext.
ghost use Rattle.std.specs.Prelude.{◌≡◌, ◌≤◌, ◌+◌, length, option_copied};
ghost use Rattle.aes_spec.specs.Cipher.{cipher};
ghost use Rattle.aes.specs.Blocks.{state};
ghost use Rattle.siv.specs.Siv as spec;
ghost use Rattle.siv.specs.Pieces.{pieces};

use crate::s2v::s2v;
use aes::block::{Block, block_at, equal, to_bytes};
use aes::round_table::RoundTable;
use ctr::counter::Counter128;
use ctr::crypt;
use octets::slice::copy_at;

// The first counter block of a synthetic IV.
fn counter_of(v: Block) -> Block
    ensures { state result ≡ spec.counter_of (state v) }
{
    Block {
        a: v.a,
        b: v.b,
        c: v.c % 2147483648,
        d: v.d % 2147483648,
    }
}

// Writes to out the text that src is enciphered or deciphered to, under the synthetic IV v.
fn crypt_under(t: &RoundTable, enc: &[u32], v: Block, src: &[u8], out: &mut [u8])
    requires in_bounds { (60 ≤ length enc.now) × (length out.old ≡ length src.now) }
    ensures { out.new ≡ spec.crypt (cipher 14 enc.now) (state v) src.now }
{
    crypt::<Counter128>(t, enc, counter_of(v), src, 0, out);
}

// Writes the sealed cleartext to out, which has just its length.
pub fn seal(
    t: &RoundTable,
    mac: &[u32],
    enc: &[u32],
    ad: Option<&[u8]>,
    cleartext: &[u8],
    out: &mut [u8],
)
    requires in_bounds { (60 ≤ length mac.now) × (60 ≤ length enc.now) }
    requires out_len { length out.old ≡ length cleartext.now + 16 }
    ensures { out.new ≡ spec.seal (cipher 14 mac.now) (cipher 14 enc.now) (pieces (option_copied ad.entry)) cleartext.now }
{
    let v = s2v(t, mac, ad, cleartext);
    copy_at(&to_bytes(v), out, 0);
    crypt_under(t, enc, v, cleartext, &mut out[16..]);
}

// Kept: the answer is the flag alone; the clause `out_after` says what `out` holds where it is false too.
// Writes the cleartext of a sealed text to out, which has just its length, and tells whether the synthetic IV matches. A caller
// that hands out nothing before this is known lends a buffer of its own.
pub fn open_into(
    t: &RoundTable,
    mac: &[u32],
    enc: &[u32],
    ad: Option<&[u8]>,
    sealed: &[u8],
    out: &mut [u8],
) -> bool
    requires in_bounds { (60 ≤ length mac.now) × (60 ≤ length enc.now) }
    requires sealed_len { length sealed.now ≡ length out.old + 16 }
    ensures value { result ≡ spec.good (cipher 14 mac.now) (cipher 14 enc.now) (pieces (option_copied ad.entry)) sealed.now }
    ensures out_after { out.new ≡ spec.plain (cipher 14 enc.now) sealed.now }
{
    let v = block_at(sealed, 0);
    crypt_under(t, enc, v, &sealed[16..], out);
    equal(s2v(t, mac, ad, out), v)
}
