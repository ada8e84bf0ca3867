// HMAC-SHA-256 (FIPS 198-1) of a text that stands in three parts.
#![tactic(auto)]

ghost use Rattle.std.specs.Prelude.{◌≡◌, ◌++◌, replicate};
ghost use Rattle.octets.specs.Xors.{xors};
ghost use Rattle.sha256.specs.Message.{sha256};
ghost use Rattle.sha256.specs.Running.{Running};
ghost use Rattle.hmac.specs.Hmac.{key_block, hmac_sha256};

use octets::slice::{copy_at, xor_into};
use sha256::{Sha256, digest};

// The key, or its hash where it is longer than a block, filled up with zeros to a block.
fn key_block(key: &[u8]) -> [u8; 64]
    ensures { result ≡ key_block sha256 key.now }
{
    let mut block = [0u8; 64];
    if key.len() <= 64 {
        copy_at(key, &mut block, 0);
    } else {
        copy_at(&digest(key), &mut block, 0);
    }
    block
}

// The hash's state after a block: the key's, with a pad added, which is one byte repeated.
fn keyed(block: [u8; 64], pad: u8) -> Sha256
    ensures { Running result (xors block (replicate 64 pad)) }
{
    let mut sum = block;
    xor_into(&[pad; 64], &mut sum);
    Sha256::new().update(&sum)
}

// The MAC of the parts a, b and c, one after the other.
pub fn mac(key: &[u8], a: &[u8], b: &[u8], c: &[u8]) -> [u8; 32]
    ensures { result ≡ hmac_sha256 key.now (a.now ++ (b.now ++ c.now)) }
{
    let block = key_block(key);
    let inner = keyed(block, 0x36).update(a).update(b).update(c).finish();
    keyed(block, 0x5c).update(&inner).finish()
}
