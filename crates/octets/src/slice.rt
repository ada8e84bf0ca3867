// Copy, exclusive or and comparison of byte slices.
ghost use Rattle.std.specs.Prelude.{◌≡◌, ◌+◌, ◌≤◌, length};
ghost use Rattle.octets.specs.Bytes.{placed, same};
ghost use Rattle.octets.specs.Xors.{xors};

// Copies src into the part of dst that starts at a place.
// Kept: a loop, which is compiled to `memcpy`: `copy_from_slice` of a length that is not known becomes `memmove`, which the library must not need.
pub fn copy_at(src: &[u8], dst: &mut [u8], at: usize)
    requires { at + length src.now ≤ length dst.old }
    ensures { dst.new ≡ placed src.now at dst.old }
{
    for i in 0..src.len() {
        dst[at + i] = src[i];
    }
}

// Adds src to dst, byte by byte.
pub fn xor_into(src: &[u8], dst: &mut [u8])
    requires { length dst.old ≤ length src.now }
    ensures { dst.new ≡ xors dst.old src.now }
{
    for i in 0..dst.len() {
        dst[i] ^= src[i];
    }
}

// Do the two hold the same bytes?
// Kept: docs/PROMISES.md names it, and it answers in the word of the specs, `same`.
pub fn equal(a: &[u8], b: &[u8]) -> bool
    ensures { result ≡ same a.now b.now }
{
    a == b
}
