// RFC 4648, section 6: base32 of whole groups of five bytes.
ghost use Rattle.std.specs.Prelude.{◌≡◌, [], ◌∷◌, ◌≤◌, ◌*◌, ◌/◌, ◌%◌, length};
ghost use Rattle.octets.specs.Bytes.{placed};
ghost use Rattle.encoding.specs.Base32 as spec;

use crate::alphabet::letter_of;

const LETTERS: [u8; 32] = [
    65, 66, 67, 68, 69, 70, 71, 72, 73, 74, 75, 76, 77, 78, 79, 80, 81, 82, 83, 84, 85, 86, 87, 88,
    89, 90, 50, 51, 52, 53, 54, 55,
];

// Kept: `alphabet::letters` with another constant; a generic function would have to be given the constant that it hands out.
fn letters() -> [u8; 32]
    ensures { result ≡ spec.alphabet }
{
    LETTERS
}

// Writes the text of five bytes to the front of out.
fn encode_group(t: &[u8; 32], a: u8, b: u8, c: u8, d: u8, e: u8, out: &mut [u8])
    requires t_value { t.now ≡ spec.alphabet }
    requires in_bounds { 8 ≤ length out.old }
    ensures { out.new ≡ placed (spec.encode (a ∷ b ∷ c ∷ d ∷ e ∷ [])) 0 out.old }
{
    out[0] = letter_of(t, a / 8);
    out[1] = letter_of(t, a % 8 * 4 + b / 64);
    out[2] = letter_of(t, b / 2 % 32);
    out[3] = letter_of(t, b % 2 * 16 + c / 16);
    out[4] = letter_of(t, c % 16 * 2 + d / 128);
    out[5] = letter_of(t, d / 4 % 32);
    out[6] = letter_of(t, d % 4 * 8 + e / 32);
    out[7] = letter_of(t, e % 32);
}

// Writes the text of whole groups of five bytes to the front of out: 20 bytes are 32 characters.
pub fn encode(bytes: &[u8], out: &mut [u8])
    requires { (length bytes.now % 5 ≡ 0) × (length bytes.now / 5 * 8 ≤ length out.old) }
    ensures { out.new ≡ placed (spec.encode bytes.now) 0 out.old }
{
    let t = letters();
    let n = bytes.len() / 5;
    for i in 0..n {
        let from = 5 * i;
        let at = 8 * i;
        encode_group(
            &t,
            bytes[from],
            bytes[from + 1],
            bytes[from + 2],
            bytes[from + 3],
            bytes[from + 4],
            &mut out[at..],
        );
    }
}
