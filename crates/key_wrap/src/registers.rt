// The registers of RFC 3394, A and then R[1] to R[4], two words each.
ghost use Rattle.std.specs.Prelude.{◌≡◌, ◌++◌, length, take};
ghost use Rattle.octets.specs.Bytes.{same};
ghost use Rattle.octets.specs.Words.{word_bytes};
ghost use Rattle.key_wrap.specs.KeyWrap.{initial_value};

use aes::block::{Block, block_at, equal};

pub type Registers = [u32; 10];

// Half of the initial value: both halves are the same.
const INITIAL: u32 = 0xa6a6a6a6;

// The initial value, and the key.
pub fn begin(key: &[u8]) -> Registers
    requires { length key.now ≡ 32 }
    ensures { word_bytes result ≡ initial_value ++ key.now }
{
    let p = block_at(key, 0);
    let q = block_at(key, 16);
    [INITIAL, INITIAL, p.a, p.b, p.c, p.d, q.a, q.b, q.c, q.d]
}

// The registers of a wrapped key.
pub fn read(s: &[u8]) -> Registers
    requires { length s.now ≡ 40 }
    ensures { word_bytes result ≡ s.now }
{
    let p = block_at(s, 0);
    let q = block_at(s, 16);
    let r = block_at(s, 24);
    [p.a, p.b, p.c, p.d, q.a, q.b, q.c, q.d, r.c, r.d]
}

// Is the check value, A, the initial value?
pub fn checks(x: &Registers) -> bool
    ensures { result ≡ same (take 8 (word_bytes x.now)) initial_value }
{
    equal(
        Block {
            a: x[0],
            b: x[1],
            c: 0,
            d: 0,
        },
        Block {
            a: INITIAL,
            b: INITIAL,
            c: 0,
            d: 0,
        },
    )
}
