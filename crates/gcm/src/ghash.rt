// GHASH (SP 800-38D, 6.4) of parts of slices.
ghost use Rattle.std.specs.Prelude.{◌≡◌, ◌++◌, ℕ, ◌<◌, ◌≤◌, ◌-◌, ◌*◌, ◌^◌, length, take, drop, replicate};
ghost use Rattle.octets.specs.BigEndian.{int, be};
ghost use Rattle.aes.specs.Blocks.{state};
ghost use Rattle.ctr.specs.Ctr.{blocks};
ghost use Rattle.gcm.specs.Elements.{value};
ghost use Rattle.gcm.specs.Table.{Entries};
ghost use Rattle.gcm.specs.Gcm as spec;

use crate::field::Element;
use crate::table::times;
use aes::block::{Block, block_at, to_bytes};
use octets::slice::copy_at;

impl From<Block> for Element {
    ghost from_gives = { λ x y. value y ≡ int (state x) };

    fn from(x: Block) -> Element {
        Element {
            hi: (x.a as u64) * 4294967296 + (x.b as u64),
            lo: (x.c as u64) * 4294967296 + (x.d as u64),
        }
    }
}

impl From<Element> for Block {
    ghost from_gives = { λ x y. state y ≡ be 16 (value x) };

    fn from(x: Element) -> Block {
        Block {
            a: (x.hi / 4294967296) as u32,
            b: (x.hi % 4294967296) as u32,
            c: (x.lo / 4294967296) as u32,
            d: (x.lo % 4294967296) as u32,
        }
    }
}

// A last block, filled up with zeros.
fn padded(s: &[u8]) -> Block
    requires { length s.now ≤ 16 }
    ensures { state result ≡ s.now ++ replicate (16 - length s.now) 0 }
{
    let mut buffer = [0u8; 16];
    copy_at(s, &mut buffer, 0);
    block_at(&buffer, 0)
}

// Block i of s, the last one filled up.
fn block_of(s: &[u8], i: usize) -> Block
    requires { 16 * i < length s.now }
    ensures { state result ≡ take 16 (drop (16 * i) (spec.pad s.now)) }
{
    let a = 16 * i;
    if s.len() - a < 16 {
        return padded(&s[a..]);
    }
    block_at(s, a)
}

// One block more of the hash, under the h of the table m.
fn step(m: &[u64; 32], y: Element, x: Block) -> Element
    ensures { (h : ℕ) → Entries h m.now 16 → value result ≡ spec.ghash_step h (value y) (state x) }
{
    times(m, y ^ Element::from(x))
}

// From y on, over the blocks of s. `step`, and so `times`, is called in this one place, so that the compiler makes it part of the loop.
fn absorb(m: &[u64; 32], y: Element, s: &[u8]) -> Element
    requires { length s.now < 2 ^ 61 }
    ensures { (h : ℕ) → Entries h m.now 16 → value result ≡ spec.ghash_from h (value y) (spec.pad s.now) (blocks (length s.now)) }
{
    let n = (s.len() + 15) / 16;
    let mut z = y;
    for i in 0..n {
        z = step(m, z, block_of(s, i));
    }
    z
}

// The hash that the tag is made of: of associated data, ciphertext and both lengths in bits, under the h of the table m.
pub fn hashed(m: &[u64; 32], aad: &[u8], ciphertext: &[u8]) -> Element
    requires { (length aad.now < 2 ^ 61) × (length ciphertext.now < 2 ^ 61) }
    ensures { (h : ℕ) → Entries h m.now 16 → value result ≡ spec.hashed h aad.now ciphertext.now }
{
    let lengths = Element {
        hi: 8 * (aad.len() as u64),
        lo: 8 * (ciphertext.len() as u64),
    };
    let y = absorb(m, Element { hi: 0, lo: 0 }, aad);
    let z = absorb(m, y, ciphertext);
    absorb(m, z, &to_bytes(Block::from(lengths)))
}
