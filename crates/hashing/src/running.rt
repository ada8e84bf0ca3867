// A hash of a message that comes in parts of any length, over any hash function of FIPS 180-4 whose blocks have 64 bytes.
ghost use Rattle.std.specs.Prelude.{◌≡◌, ℕ, ◌+◌, ◌*◌, ◌%◌, ◌<◌, ◌≤◌, List, [], length};
ghost use Rattle.octets.specs.Words.{word_bytes};
ghost use Rattle.hashing.specs.Message.{hash_from};
ghost use Rattle.hashing.specs.Running.{Running, Updated, finished};
ghost use Rattle.hashing.specs.States.{state_of};

use crate::padding::padding_of;
use octets::slice::copy_at;

// A hash value, which a hash function takes from block to block.
pub trait HashValue: Copy {
    // The message digest.
    type Digest;

    ghost compress: { List ℕ → List ℕ → List ℕ };

    ghost initial: { List ℕ };

    ghost words_of: { Self → List ℕ };

    ghost bytes_of: { Self.Digest → List ℕ };

    // 5.3: the hash value before the first block.
    fn initial() -> Self
        ensures { words_of result ≡ initial };

    // 6.1.2 and 6.2.2: the hash value after the first n blocks of s.
    fn after_blocks(self, s: &[u8], n: usize) -> Self
        requires { 64 * n ≤ length s.now }
        ensures { words_of result ≡ hash_from compress (words_of self) s.now n };

    // The bytes of the words.
    fn to_digest(self) -> Self::Digest
        ensures { bytes_of result ≡ word_bytes (words_of self) };
}

// The hash value of the whole blocks so far, the bytes that wait for the rest of their block, and the number of bytes, modulo 2^64.
// Every value of this type, however it was made, can go on: `Updated` and `finished` say what it gives.
#[derive(Clone, Copy)]
pub struct Hash<V> {
    pub words: V,
    pub waiting: [u8; 64],
    pub length: u64,
}

impl<V: HashValue> Hash<V> {
    pub fn new() -> Self
        ensures { Running V.compress V.initial (state_of V.words_of result) [] }
    {
        Hash {
            words: V::initial(),
            waiting: [0u8; 64],
            length: 0,
        }
    }

    // s, which does not complete a block, joins the bytes that wait.
    fn wait(&mut self, s: &[u8])
        requires { self.old.length % 64 + length s.now < 64 }
        ensures { Updated V.compress (state_of V.words_of self.old) s.now (state_of V.words_of self.new) }
    {
        let at = (self.length % 64) as usize;
        copy_at(s, &mut self.waiting, at);
        self.length = self.length.wrapping_add(s.len() as u64);
    }

    // s completes the block that waits.
    fn complete(&mut self, s: &[u8])
        requires { self.old.length % 64 + length s.now ≡ 64 }
        ensures { Updated V.compress (state_of V.words_of self.old) s.now (state_of V.words_of self.new) }
    {
        let at = (self.length % 64) as usize;
        copy_at(s, &mut self.waiting, at);
        self.words = self.words.after_blocks(&self.waiting, 1);
        self.length = self.length.wrapping_add(s.len() as u64);
    }

    // The whole blocks of s are hashed where they stand, and the bytes after them wait. No bytes wait before s.
    fn absorb(&mut self, s: &[u8])
        requires { self.old.length % 64 ≡ 0 }
        ensures { Updated V.compress (state_of V.words_of self.old) s.now (state_of V.words_of self.new) }
    {
        let n = s.len() / 64;
        self.words = self.words.after_blocks(s, n);
        copy_at(&s[64 * n..], &mut self.waiting, 0);
        self.length = self.length.wrapping_add(s.len() as u64);
    }

    // Takes in s. A state after a message m becomes one after m and s (`RunsOn` of specs/Statements.antt).
    pub fn update(mut self, s: &[u8]) -> Self
        ensures { Updated V.compress (state_of V.words_of self) s.now (state_of V.words_of result) }
    {
        let have = (self.length % 64) as usize;
        if have == 0 {
            self.absorb(s);
        } else if s.len() < 64 - have {
            self.wait(s);
        } else {
            let (first, rest) = s.split_at(64 - have);
            self.complete(first);
            self.absorb(rest);
        }
        self
    }

    // The padding goes in, and completes the last block. A state after a message gives its message digest (`EndsInDigest`).
    pub fn finish(self) -> V::Digest
        ensures { V.bytes_of result ≡ finished V.compress (state_of V.words_of self) }
    {
        let padding = padding_of(self.length);
        let last = self.update(&padding.bytes[..padding.length]);
        last.words.to_digest()
    }
}
