// The operations on words of FIPS 180-4, 3.2 and 4.1.1, that SHA-1 alone uses.
ghost use Rattle.std.specs.Prelude.{◌≡◌};
ghost use Rattle.sha1_hash.specs.Operations as spec;

pub fn rotl1(x: u32) -> u32
    ensures { result ≡ spec.rotl 1 x }
{
    x.rotate_left(1)
}

pub fn rotl5(x: u32) -> u32
    ensures { result ≡ spec.rotl 5 x }
{
    x.rotate_left(5)
}

pub fn rotl30(x: u32) -> u32
    ensures { result ≡ spec.rotl 30 x }
{
    x.rotate_left(30)
}

pub fn parity(x: u32, y: u32, z: u32) -> u32
    ensures { result ≡ spec.parity x y z }
{
    x ^ y ^ z
}
