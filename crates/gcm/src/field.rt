// The elements of the field of SP 800-38D, 6.3.
ghost use Rattle.std.specs.Prelude.{◌≡◌, ◌<◌, ◌*◌};
ghost use Rattle.std.specs.Int.Bits.{bit_xor};
ghost use Rattle.gcm.specs.Field as spec;
ghost use Rattle.gcm.specs.Elements.{value};

use std::ops::BitXor;

// A block of 128 bits: the first 64, and the last 64.
#[derive(Clone, Copy)]
pub struct Element {
    pub hi: u64,
    pub lo: u64,
}

// The sum.
impl BitXor for Element {
    type Output = Element;

    ghost bitxor_gives = { λ x y z. value z ≡ bit_xor (value x) (value y) };

    fn bitxor(self, rhs: Element) -> Element {
        Element {
            hi: self.hi ^ rhs.hi,
            lo: self.lo ^ rhs.lo,
        }
    }
}

// The element, or 0 where the bit is 0.
pub fn scale(bit: u64, v: Element) -> Element
    requires { bit < 2 }
    ensures { value result ≡ bit * value v }
{
    Element {
        hi: bit * v.hi,
        lo: bit * v.lo,
    }
}

pub fn next(v: Element) -> Element
    ensures { value result ≡ spec.next (value v) }
{
    Element {
        hi: (v.hi / 2) ^ (v.lo % 2 * 0xe100000000000000),
        lo: v.lo / 2 + v.hi % 2 * 0x8000000000000000,
    }
}
