// The functions of SHA-256 on words: FIPS 180-4, 4.1.2.
ghost use Rattle.std.specs.Prelude.{◌≡◌};
ghost use Rattle.sha256.specs.Operations as spec;

// Kept: the standard's four functions; one for two would be given the three numbers that make it the one or the other.
pub fn big_sigma0(x: u32) -> u32
    ensures { result ≡ spec.Σ0 x }
{
    x.rotate_right(2) ^ x.rotate_right(13) ^ x.rotate_right(22)
}

pub fn big_sigma1(x: u32) -> u32
    ensures { result ≡ spec.Σ1 x }
{
    x.rotate_right(6) ^ x.rotate_right(11) ^ x.rotate_right(25)
}

pub fn small_sigma0(x: u32) -> u32
    ensures { result ≡ spec.σ0 x }
{
    x.rotate_right(7) ^ x.rotate_right(18) ^ (x >> 3)
}

pub fn small_sigma1(x: u32) -> u32
    ensures { result ≡ spec.σ1 x }
{
    x.rotate_right(17) ^ x.rotate_right(19) ^ (x >> 10)
}
