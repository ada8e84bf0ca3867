// The columns of a round are sums of words, each rotated to its row.
ghost use Rattle.octets.specs.Words.{HasBytes, b0, b1, b2, b3};
ghost use Rattle.aes_spec.specs.Cipher.{xor4};

// The sum of four words, the first as it is and each other one rotated right by a byte more than the one before it.
pub fn rotated_sum(p: u32, q: u32, r: u32, s: u32) -> u32
    ensures { HasBytes result
        (xor4 (b0 p) (b3 q) (b2 r) (b1 s))
        (xor4 (b1 p) (b0 q) (b3 r) (b2 s))
        (xor4 (b2 p) (b1 q) (b0 r) (b3 s))
        (xor4 (b3 p) (b2 q) (b1 r) (b0 s)) }
{
    p ^ q.rotate_right(8) ^ r.rotate_right(16) ^ s.rotate_right(24)
}
