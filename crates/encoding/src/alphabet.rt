// The tables of base64url. Each call of a function that names a constant array copies it: `letters` and `values` hand out a copy,
// to be lent to what follows.
ghost use Rattle.std.specs.Prelude.{◌≡◌, true, ◌<◌, length, get_or};
ghost use Rattle.encoding.specs.Base64url.{alphabet, value, known};
ghost use Rattle.encoding.specs.Leading.{Leading};
ghost use Rattle.encoding.specs.ValueTable.{value_table};

const LETTERS: [u8; 64] = [
    65, 66, 67, 68, 69, 70, 71, 72, 73, 74, 75, 76, 77, 78, 79, 80, 81, 82, 83, 84, 85, 86, 87, 88,
    89, 90, 97, 98, 99, 100, 101, 102, 103, 104, 105, 106, 107, 108, 109, 110, 111, 112, 113, 114,
    115, 116, 117, 118, 119, 120, 121, 122, 48, 49, 50, 51, 52, 53, 54, 55, 56, 57, 45, 95,
];

// What each byte stands for, and 64 for one that isn't in the alphabet.
const VALUES: [u8; 256] = [
    64, 64, 64, 64, 64, 64, 64, 64, 64, 64, 64, 64, 64, 64, 64, 64, 64, 64, 64, 64, 64, 64, 64, 64,
    64, 64, 64, 64, 64, 64, 64, 64, 64, 64, 64, 64, 64, 64, 64, 64, 64, 64, 64, 64, 64, 62, 64, 64,
    52, 53, 54, 55, 56, 57, 58, 59, 60, 61, 64, 64, 64, 64, 64, 64, 64, 0, 1, 2, 3, 4, 5, 6, 7, 8,
    9, 10, 11, 12, 13, 14, 15, 16, 17, 18, 19, 20, 21, 22, 23, 24, 25, 64, 64, 64, 64, 63, 64, 26,
    27, 28, 29, 30, 31, 32, 33, 34, 35, 36, 37, 38, 39, 40, 41, 42, 43, 44, 45, 46, 47, 48, 49, 50,
    51, 64, 64, 64, 64, 64, 64, 64, 64, 64, 64, 64, 64, 64, 64, 64, 64, 64, 64, 64, 64, 64, 64, 64,
    64, 64, 64, 64, 64, 64, 64, 64, 64, 64, 64, 64, 64, 64, 64, 64, 64, 64, 64, 64, 64, 64, 64, 64,
    64, 64, 64, 64, 64, 64, 64, 64, 64, 64, 64, 64, 64, 64, 64, 64, 64, 64, 64, 64, 64, 64, 64, 64,
    64, 64, 64, 64, 64, 64, 64, 64, 64, 64, 64, 64, 64, 64, 64, 64, 64, 64, 64, 64, 64, 64, 64, 64,
    64, 64, 64, 64, 64, 64, 64, 64, 64, 64, 64, 64, 64, 64, 64, 64, 64, 64, 64, 64, 64, 64, 64, 64,
    64, 64, 64, 64, 64, 64, 64, 64, 64, 64, 64, 64, 64, 64,
];

// The letters of all values, in their order.
#[derive(Clone, Copy)]
pub struct LetterTable {
    pub bytes: [u8; 64],
    pub ghost standard: { bytes ≡ alphabet },
}

// The values of all bytes.
#[derive(Clone, Copy)]
pub struct ValueTable {
    pub bytes: [u8; 256],
    pub ghost standard: { bytes ≡ value_table },
}

pub fn letters() -> LetterTable {
    LetterTable { bytes: LETTERS }
}

pub fn values() -> ValueTable {
    ValueTable { bytes: VALUES }
}

// The letter of v in an alphabet of N letters: `letter v` in that of base64url, and in that of base32.
pub fn letter_of<const N: usize>(t: &[u8; N], v: u8) -> u8
    requires { v < N }
    ensures { result ≡ get_or t.now v 0 }
{
    t[v as usize]
}

// Kept: 64 for a character outside the alphabet: an Option would be made and taken apart at each character, in the loop that reads names.
pub fn value_of(t: &ValueTable, c: u8) -> u8
    ensures { result ≡ value c }
{
    t.bytes[c as usize]
}

// The value of the character i of a text that has only characters of the alphabet.
pub fn value_at(t: &ValueTable, text: &[u8], i: usize) -> u8
    requires text_value { (known text.now ≡ true) × (i < length text.now) }
    ensures { (result ≡ value (get_or text.now i 0)) × (result < 64) }
{
    value_of(t, text[i])
}

// How many characters of a text, from its start on, are of the alphabet.
pub fn leading(t: &ValueTable, text: &[u8]) -> usize
    ensures { Leading result text.now }
{
    text.iter()
        .position(|&c| 64 <= value_of(t, c))
        .unwrap_or(text.len())
}
