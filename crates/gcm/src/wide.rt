// Products that are not yet fully reduced: sums of blocks, each at its place in 256 bits. As in a block, the first bit is the highest,
// and a step of V (SP 800-38D, 6.3) goes one place to the right.
ghost use Rattle.std.specs.Prelude.{◌≡◌, ◌*◌, ◌/◌, ◌^◌};
ghost use Rattle.std.specs.Int.Bits.{bit_xor};
ghost use Rattle.gcm.specs.Elements.{value, wide};
ghost use Rattle.gcm.specs.Digits.{nexts};

use crate::field::Element;
use std::ops::BitXor;

// 256 bits, the first 64 in a.
#[derive(Clone, Copy)]
pub struct Wide {
    pub a: u64,
    pub b: u64,
    pub c: u64,
    pub d: u64,
}

// The sum.
impl BitXor for Wide {
    type Output = Wide;

    ghost bitxor_gives = { λ x y z. wide z ≡ bit_xor (wide x) (wide y) };

    fn bitxor(self, rhs: Wide) -> Wide {
        Wide {
            a: self.a ^ rhs.a,
            b: self.b ^ rhs.b,
            c: self.c ^ rhs.c,
            d: self.d ^ rhs.d,
        }
    }
}

// Four places to the right.
pub fn right4(z: Wide) -> Wide
    ensures { wide result ≡ wide z / 2 ^ 4 }
{
    Wide {
        a: z.a / 16,
        b: z.b / 16 + z.a % 16 * 0x1000000000000000,
        c: z.c / 16 + z.b % 16 * 0x1000000000000000,
        d: z.d / 16 + z.c % 16 * 0x1000000000000000,
    }
}

// Eight places to the right.
// Kept: one function for both would take N, shift by N and 64 - N and ask for both in a `requires`; two bodies of literals are no longer.
pub fn right8(z: Wide) -> Wide
    ensures { wide result ≡ wide z / 2 ^ 8 }
{
    Wide {
        a: z.a / 256,
        b: z.b / 256 + z.a % 256 * 0x0100000000000000,
        c: z.c / 256 + z.b % 256 * 0x0100000000000000,
        d: z.d / 256 + z.c % 256 * 0x0100000000000000,
    }
}

// Adds x at the first place, and y 64 places further right.
pub fn plus(z: Wide, x: Element, y: Element) -> Wide
    ensures { wide result ≡ bit_xor (wide z) (bit_xor (value x * 2 ^ 64) (value y) * 2 ^ 64) }
{
    Wide {
        a: z.a ^ x.hi,
        b: z.b ^ (x.lo ^ y.hi),
        c: z.c ^ y.lo,
        d: z.d,
    }
}

// The 64 bits behind a block, x^128 to x^191, as a block: x^128 is 1 + x + x^2 + x^7. Of the 64 bits behind these, the block is 64 places
// further right.
fn fold(t: u64) -> Element
    ensures { value result ≡ nexts 64 t }
{
    Element {
        hi: t ^ (t / 2) ^ (t / 4) ^ (t / 128),
        lo: (t % 2 * 0x8000000000000000)
            ^ (t % 4 * 0x4000000000000000)
            ^ (t % 128 * 0x0200000000000000),
    }
}

// The last 128 bits are folded into the first, from the end on.
pub fn reduce(z: Wide) -> Element
    ensures { value result ≡ nexts 128 (wide z) }
{
    let f = fold(z.d);
    let first = Element {
        hi: z.a,
        lo: z.b ^ f.hi,
    };
    first ^ fold(z.c ^ f.lo)
}
