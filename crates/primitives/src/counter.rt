// Counter mode with AES-256: with a counter of 128 bits, and in place.
ghost use Rattle.std.specs.Prelude.{◌≡◌};
ghost use Rattle.primitives.specs.Results.{end, ctr128, ctr_in_place};

use aes::block::block_at;
use aes::key::expand;
use aes::round_table::RoundTable;
use ctr::counter::{Counter32, Counter128};
use ctr::crypt;
use ctr::in_place::crypt_in_place;

// The text with the key stream added.
#[tactic(auto, unfolding(crate::specs::Results::ctr128, crate::specs::Results::done_if))]
pub fn primitives_ctr128(key: &[u8], first_counter: &[u8], text: &[u8], out: &mut [u8]) -> u32
    ensures { end result out.new ≡ ctr128 key.now first_counter.now text.now out.old }
{
    if key.len() != 32 {
        return 0;
    }
    if first_counter.len() != 16 {
        return 0;
    }
    let n = text.len();
    if out.len() < n {
        return 0;
    }
    let t = RoundTable::new();
    let mut w = [0u32; 60];
    expand(key, &mut w);
    crypt::<Counter128>(&t, &w, block_at(first_counter, 0), text, 0, &mut out[..n]);
    1
}

// The text with the key stream added, in its place. The whole counter block counts if `wide` is not 0, and its last word if it is.
#[tactic(auto, unfolding(crate::specs::Results::ctr_in_place, crate::specs::Results::done_if))]
pub fn primitives_ctr_in_place(key: &[u8], first_counter: &[u8], wide: u32, text: &mut [u8]) -> u32
    ensures { end result text.new ≡ ctr_in_place key.now first_counter.now wide text.old }
{
    if key.len() != 32 {
        return 0;
    }
    if first_counter.len() != 16 {
        return 0;
    }
    let t = RoundTable::new();
    let mut w = [0u32; 60];
    expand(key, &mut w);
    let first = block_at(first_counter, 0);
    if wide == 0 {
        crypt_in_place::<Counter32>(&t, &w, first, text);
    } else {
        crypt_in_place::<Counter128>(&t, &w, first, text);
    }
    1
}
