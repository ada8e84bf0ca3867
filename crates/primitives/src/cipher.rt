// AES-256 of one block: encryption and decryption.
ghost use Rattle.std.specs.Prelude.{◌≡◌};
ghost use Rattle.primitives.specs.Results.{end, aes256, aes256_decrypt};

use aes::block::{block_at, encrypt, to_bytes};
use aes::key::expand;
use aes::round_table::RoundTable;
use aes_inverse::block::decrypt;
use aes_inverse::round_table::InverseRoundTable;
use aes_inverse::unmix::unmix_keys;
use octets::slice::copy_at;

// The block, enciphered.
#[tactic(auto, unfolding(crate::specs::Results::aes256, crate::specs::Results::aes_fits, crate::specs::Results::done_if))]
pub fn primitives_aes256(key: &[u8], block: &[u8], out: &mut [u8]) -> u32
    ensures { end result out.new ≡ aes256 key.now block.now out.old }
{
    if key.len() != 32 {
        return 0;
    }
    if block.len() != 16 {
        return 0;
    }
    if out.len() < 16 {
        return 0;
    }
    let t = RoundTable::new();
    let mut w = [0u32; 60];
    expand(key, &mut w);
    copy_at(&to_bytes(encrypt(&t, &w, block_at(block, 0))), out, 0);
    1
}

// The block, deciphered.
#[tactic(auto, unfolding(crate::specs::Results::aes256_decrypt, crate::specs::Results::aes_fits, crate::specs::Results::done_if))]
pub fn primitives_aes256_decrypt(key: &[u8], block: &[u8], out: &mut [u8]) -> u32
    ensures { end result out.new ≡ aes256_decrypt key.now block.now out.old }
{
    if key.len() != 32 {
        return 0;
    }
    if block.len() != 16 {
        return 0;
    }
    if out.len() < 16 {
        return 0;
    }
    let t = InverseRoundTable::new();
    let mut w = [0u32; 60];
    expand(key, &mut w);
    let mut v = [0u32; 60];
    unmix_keys(&w, &mut v);
    copy_at(&to_bytes(decrypt(&t, &w, &v, block_at(block, 0))), out, 0);
    1
}
