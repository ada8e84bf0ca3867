// Registers as bytes in a buffer.
ghost use Rattle.std.specs.Prelude.{◌≡◌, ◌*◌, length, take, drop};
ghost use Rattle.octets.specs.Words.{word_bytes};
ghost use Rattle.key_wrap.specs.KeyWrap.{initial_value};

use crate::registers::Registers;
use octets::word::put_word;

// The bytes of words.
// Kept: `hashing::words::write_words` does this at any place; docs/PROMISES.md names it there, and this crate does not stand on `hashing`.
pub fn store(words: &[u32], out: &mut [u8])
    requires { length out.old ≡ 4 * length words.now }
    ensures { out.new ≡ word_bytes words.now }
{
    for (i, word) in words.iter().enumerate() {
        put_word(*word, out, 4 * i);
    }
}

// The key, once the check value has been found right.
pub fn store_key(x: &Registers, out: &mut [u8])
    requires out_len { length out.old ≡ 32 }
    requires x_value { take 8 (word_bytes x.now) ≡ initial_value }
    ensures { out.new ≡ drop 8 (word_bytes x.now) }
{
    store(&x[2..], out);
}
