// SHA-1 (FIPS 180-4) of a message that comes in parts of any length.
#![tactic(auto)]

mod block;
mod operations;

ghost use Rattle.std.specs.Prelude.{◌≡◌};
ghost use Rattle.sha1_hash.specs.Compression as spec;
ghost use Rattle.sha1_hash.specs.Message as message;
ghost use Rattle.sha1_hash.specs.Message.{sha1};

use block::compress;
use hashing::running::{Hash, HashValue};
use hashing::words::word_bytes;

// The hash value: five words.
#[derive(Clone, Copy)]
pub struct Words(pub [u32; 5]);

impl HashValue for Words {
    type Digest = [u8; 20];

    ghost compress = { spec.compress };

    ghost initial = { message.initial };

    ghost words_of = { λ v. v.0 };

    ghost bytes_of = { λ d. d };

    fn initial() -> Words {
        Words([0x67452301, 0xefcdab89, 0x98badcfe, 0x10325476, 0xc3d2e1f0])
    }

    fn after_blocks(self, s: &[u8], n: usize) -> Words {
        let mut x = self.0;
        for i in 0..n {
            let y = compress(x, s, 64 * i);
            x = y;
        }
        Words(x)
    }

    fn to_digest(self) -> [u8; 20] {
        word_bytes(&self.0)
    }
}

// A running SHA-1.
pub type Sha1 = Hash<Words>;

// The message digest of a whole message.
pub fn digest(s: &[u8]) -> [u8; 20]
    ensures { result ≡ sha1 s.now }
{
    Sha1::new().update(s).finish()
}
