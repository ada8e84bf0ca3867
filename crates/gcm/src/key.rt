// A key made ready: its key schedule, and the table of its hash subkey.
ghost use Rattle.std.specs.Prelude.{◌≡◌, ◌≤◌, length};
ghost use Rattle.aes_spec.specs.Cipher.{cipher, aes};
ghost use Rattle.gcm.specs.Elements.{value};
ghost use Rattle.gcm.specs.Keyed.{Keyed};
ghost use Rattle.gcm.specs.Gcm as spec;

use crate::field::Element;
use crate::table::fill;
use aes::block::{Block, encrypt};
use aes::key::expand;
use aes::round_table::RoundTable;

/// A key made ready, as it is lent to what works under it: the table of the rounds, the key schedule, and the table of the hash subkey.
#[derive(Clone, Copy)]
pub struct Key<'a> {
    pub t: &'a RoundTable,
    pub w: &'a [u32],
    pub m: &'a [u64; 32],
    pub ghost keyed: { Keyed t.now.words w.now m.now },
}

// The hash subkey: the block of zeros, enciphered.
fn subkey(t: &RoundTable, w: &[u32]) -> Element
    requires { 60 ≤ length w.now }
    ensures { value result ≡ spec.subkey (cipher 14 w.now) }
{
    let zeros = Block {
        a: 0,
        b: 0,
        c: 0,
        d: 0,
    };
    Element::from(encrypt(t, w, zeros))
}

// Writes the key schedule to w, and the table of the hash subkey to m.
pub fn prepare(t: &RoundTable, key: &[u8], w: &mut [u32], m: &mut [u64])
    requires { (length key.now ≡ 32) × (length w.old ≡ 60) × (length m.old ≡ 32) }
    ensures { Keyed t.now.words w.new m.new × (cipher 14 w.new ≡ aes 8 key.now) }
{
    expand(key, w);
    fill(subkey(t, w), m);
}
