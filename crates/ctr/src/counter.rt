// Counters of 32 and of 128 bits: the counter block that comes i after a first one.
ghost use Rattle.std.specs.Prelude.{◌≡◌, ℕ, List, ◌+◌, ◌*◌, ◌^◌};
ghost use Rattle.aes.specs.Blocks.{state};
ghost use Rattle.ctr.specs.Ctr as spec;

use aes::block::Block;

// What counts in a counter block. `inc` gives the next block.
pub trait Counter {
    ghost inc: { List ℕ → List ℕ };

    fn after(first: Block, i: usize) -> Block
        ensures { state result ≡ spec.after inc i (state first) };
}

// The last word counts.
pub struct Counter32;

impl Counter for Counter32 {
    ghost inc = { spec.inc32 };

    fn after(first: Block, i: usize) -> Block {
        Block {
            a: first.a,
            b: first.b,
            c: first.c,
            d: first.d.wrapping_add((i % 4294967296) as u32),
        }
    }
}

// The number that a block stands for.
// Kept: `From` for a type of another crate would have to stand in `aes`, which has no use for it.
fn number_of(x: Block) -> u128
    ensures { result ≡ (x.a * 2 ^ 32 + x.b) * 2 ^ 64 + (x.c * 2 ^ 32 + x.d) }
{
    let high = u64::from(x.a) * 4294967296 + u64::from(x.b);
    let low = u64::from(x.c) * 4294967296 + u64::from(x.d);
    u128::from(high) * 18446744073709551616 + u128::from(low)
}

// The whole block counts.
pub struct Counter128;

impl Counter for Counter128 {
    ghost inc = { spec.inc128 };

    fn after(first: Block, i: usize) -> Block {
        let sum = number_of(first).wrapping_add(i as u128);
        let high = (sum / 18446744073709551616) as u64;
        let low = (sum % 18446744073709551616) as u64;
        Block {
            a: (high / 4294967296) as u32,
            b: (high % 4294967296) as u32,
            c: (low / 4294967296) as u32,
            d: (low % 4294967296) as u32,
        }
    }
}
