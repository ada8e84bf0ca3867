// The product with a hash subkey h, four bits at a time, from a table of sixteen entries that is made once for h. Each turn takes a
// byte from each half of the block, as two digits of four bits.
ghost use Rattle.std.specs.Prelude.{◌≡◌, ℕ, ◌*◌, ◌/◌, ◌^◌, ◌<◌, length};
ghost use Rattle.std.specs.Int.Bits.{bit_xor};
ghost use Rattle.gcm.specs.Field.{mul};
ghost use Rattle.gcm.specs.Elements.{value, wide};
ghost use Rattle.gcm.specs.Digits.{nexts};
ghost use Rattle.gcm.specs.Table.{entry_of, four_bits, Entries};

use crate::field::{Element, next, scale};
use crate::wide::{Wide, plus, reduce, right4, right8};

// The multiple of h that entry i is: the block whose first four bits are i, times h, bit by bit.
fn multiple(i: u64, h: Element) -> Element
    ensures { value result ≡ mul (four_bits i) (value h) }
{
    let mut z = Element { hi: 0, lo: 0 };
    let mut v = h;
    for n in 0..4u64 {
        z = z ^ scale((i >> (3 - n)) % 2, v);
        v = next(v);
    }
    z
}

// Writes the table of h.
pub fn fill(h: Element, m: &mut [u64])
    requires { length m.old ≡ 32 }
    ensures { Entries (value h) m.new 16 }
{
    for i in 0..16 {
        let e = multiple(i as u64, h);
        m[2 * i] = e.hi;
        m[2 * i + 1] = e.lo;
    }
}

fn entry(m: &[u64; 32], i: usize) -> Element
    requires { i < 16 }
    ensures { value result ≡ entry_of m.now i }
{
    let p = 2 * i;
    let q = p + 1;
    Element { hi: m[p], lo: m[q] }
}

// Eight places to the right, and then entry i is added at the first place, and entry j 64 places further right.
fn step(m: &[u64; 32], z: Wide, i: usize, j: usize) -> Wide
    requires { (i < 16) × (j < 16) }
    ensures { wide result ≡ bit_xor (wide z / 2 ^ 8) (bit_xor (entry_of m.now i * 2 ^ 64) (entry_of m.now j) * 2 ^ 64) }
{
    plus(right8(z), entry(m, i), entry(m, j))
}

// The product, not yet fully reduced. p adds up the entries of the high digits of the bytes, q those of the low digits, which stand
// four places further right; both from the last byte on.
fn product(m: &[u64; 32], x: Element) -> Wide
    ensures { (h : ℕ) → Entries h m.now 16 → nexts 128 (wide result) ≡ mul (value x) h }
{
    let zero = Wide {
        a: 0,
        b: 0,
        c: 0,
        d: 0,
    };
    let mut p = zero;
    let mut q = zero;
    let mut v = x.hi;
    let mut w = x.lo;
    for _n in 0..8usize {
        let i = (v % 256) as usize;
        let j = (w % 256) as usize;
        p = step(m, p, i / 16, j / 16);
        q = step(m, q, i % 16, j % 16);
        v = v / 256;
        w = w / 256;
    }
    p ^ right4(q)
}

// X • H (6.3), for the hash subkey whose table m is.
pub fn times(m: &[u64; 32], x: Element) -> Element
    ensures { (h : ℕ) → Entries h m.now 16 → value result ≡ mul (value x) h }
{
    reduce(product(m, x))
}
