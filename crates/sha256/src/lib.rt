// SHA-256 (FIPS 180-4) of a message that comes in parts of any length.
#![tactic(auto)]

mod block;
mod constants;
mod operations;

ghost use Rattle.std.specs.Prelude.{◌≡◌};
ghost use Rattle.sha256.specs.Compression as spec;
ghost use Rattle.sha256.specs.Message as message;
ghost use Rattle.sha256.specs.Message.{sha256};

use block::compress;
use constants::Constants;
use hashing::running::{Hash, HashValue};
use hashing::words::word_bytes;

// The hash value: eight words.
#[derive(Clone, Copy)]
pub struct Words(pub [u32; 8]);

impl HashValue for Words {
    type Digest = [u8; 32];

    ghost compress = { spec.compress };

    ghost initial = { message.initial };

    ghost words_of = { λ v. v.0 };

    ghost bytes_of = { λ d. d };

    fn initial() -> Words {
        Words([
            0x6a09e667, 0xbb67ae85, 0x3c6ef372, 0xa54ff53a, 0x510e527f, 0x9b05688c, 0x1f83d9ab,
            0x5be0cd19,
        ])
    }

    // Kept: `sha1_hash` has this loop with no table; a method of one block would lend every hash function the table of this one.
    fn after_blocks(self, s: &[u8], n: usize) -> Words {
        let k = Constants::new();
        let mut x = self.0;
        for i in 0..n {
            let y = compress(&k, x, s, 64 * i);
            x = y;
        }
        Words(x)
    }

    fn to_digest(self) -> [u8; 32] {
        word_bytes(&self.0)
    }
}

// A running SHA-256.
pub type Sha256 = Hash<Words>;

// The message digest of a whole message.
pub fn digest(s: &[u8]) -> [u8; 32]
    ensures { result ≡ sha256 s.now }
{
    Sha256::new().update(s).finish()
}
