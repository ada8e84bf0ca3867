// InvMixColumns of a column, for the round keys.
ghost use Rattle.std.specs.Prelude.{◌≡◌, ◌≤◌, length};
ghost use Rattle.octets.specs.Words.{HasBytes};
ghost use Rattle.aes_spec.specs.Field.{xtimes, mul};
ghost use Rattle.aes_inverse.specs.RoundKeys.{Unmixed, UnmixedKeys};

use aes::rotate::rotated_sum;
use octets::word::{byte0, byte1, byte2, byte3, join};

// A byte times x.
fn times_x(b: u8) -> u8
    ensures { result ≡ xtimes b }
{
    if b < 128 {
        b * 2
    } else {
        ((b - 128) * 2) ^ 0x1b
    }
}

// What a byte in the first row adds to its column: its multiples, sums of the byte times 1, x, x^2 and x^3.
fn multiples(b: u8) -> u32
    ensures { HasBytes result (mul 0x0e b) (mul 0x09 b) (mul 0x0d b) (mul 0x0b b) }
{
    let x1 = times_x(b);
    let x2 = times_x(x1);
    let x3 = times_x(x2);
    join(x3 ^ x2 ^ x1, x3 ^ b, x3 ^ x2 ^ b, x3 ^ x1 ^ b)
}

fn unmixed_column(w: u32) -> u32
    ensures { Unmixed result w }
{
    rotated_sum(
        multiples(byte0(w)),
        multiples(byte1(w)),
        multiples(byte2(w)),
        multiples(byte3(w)),
    )
}

// Writes the round keys 1 to 13 of the key schedule w, under InvMixColumns, to their places in v; nothing reads the others.
pub fn unmix_keys(w: &[u32], v: &mut [u32])
    requires { (60 ≤ length w.now) × (length v.old ≡ 60) }
    ensures { UnmixedKeys w.now v.new 56 }
{
    for i in 4..56 {
        v[i] = unmixed_column(w[i]);
    }
}
