// The padding: FIPS 180-4, 5.1.1.
ghost use Rattle.std.specs.Prelude.{◌≡◌, ◌≤◌, length, take};
ghost use Rattle.hashing.specs.Message as spec;

use octets::slice::copy_at;
use octets::word::split_eight;

// The first `length` bytes are the padding.
// Kept: no heap, so its 9 to 72 bytes stand in an array with their number beside it.
#[derive(Clone, Copy)]
pub struct Padding {
    pub bytes: [u8; 72],
    pub length: usize,
}

// What is appended to a message of so many bytes, a number modulo 2^64.
pub fn padding_of(count: u64) -> Padding
    ensures bytes_len { (length result.bytes ≡ 72) × (result.length ≤ 72) }
    ensures bytes_value { take result.length result.bytes ≡ spec.padding count }
{
    let zeros = ((119 - count % 64) % 64) as usize;
    let mut tail = [0u8; 72];
    tail[0] = 0x80;
    copy_at(&split_eight(count << 3), &mut tail, 1 + zeros);
    Padding {
        bytes: tail,
        length: zeros + 9,
    }
}
