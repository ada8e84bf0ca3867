// One block: FIPS 180-4, 6.1.2.
ghost use Rattle.std.specs.Prelude.{◌≡◌, ◌+◌, ◌≤◌, length, take, drop};
ghost use Rattle.hashing.specs.Operations.{plus};
ghost use Rattle.hashing.specs.Schedule.{extended};
ghost use Rattle.sha1_hash.specs.Operations.{rotl};
ghost use Rattle.sha1_hash.specs.Compression as spec;
ghost use Rattle.sha1_hash.specs.Working.{variables, Uses};

use crate::operations::{parity, rotl1, rotl5, rotl30};
use hashing::operations::{ch, maj};
use hashing::words::load;

// The working variables.
#[derive(Clone, Copy)]
pub struct Working {
    pub a: u32,
    pub b: u32,
    pub c: u32,
    pub d: u32,
    pub e: u32,
}

// Writes W_16 to W_79 after the first 16 words.
fn extend(w: &mut [u32])
    requires { length w.old ≡ 80 }
    ensures { w.new ≡ extended spec.next_word (take 16 w.old) 64 }
{
    for t in 16..80 {
        w[t] = rotl1(w[t - 3] ^ w[t - 8] ^ w[t - 14] ^ w[t - 16]);
    }
}

// The message schedule of the block at a place of s.
// Kept: that of `sha256` has another length and another next word, and a generic one would be lent both; a block is a place of s, as `hashing::words::load` takes it.
fn schedule(s: &[u8], at: usize) -> [u32; 80]
    requires { at + 64 ≤ length s.now }
    ensures { result ≡ spec.schedule (take 64 (drop at s.now)) }
{
    let mut w = [0u32; 80];
    load(s, at, &mut w);
    extend(&mut w);
    w
}

// One step, with the values of f_t, K_t and W_t.
fn step(x: Working, f: u32, k: u32, w: u32) -> Working
    ensures { variables result ≡ spec.vars (plus (plus (plus (plus (rotl 5 x.a) f) x.e) k) w) x.a (rotl 30 x.b) x.c x.d }
{
    let sum = rotl5(x.a).wrapping_add(f).wrapping_add(x.e);
    Working {
        a: sum.wrapping_add(k).wrapping_add(w),
        b: x.a,
        c: rotl30(x.b),
        d: x.c,
        e: x.d,
    }
}

// The 20 steps from t on, with the function f and the constant k.
fn twenty_steps<F: Fn(u32, u32, u32) -> u32>(
    w: &[u32; 80],
    t: usize,
    f: F,
    k: u32,
    x: Working,
) -> Working
    requires t_value { t ≤ 60 }
    requires f_callable { F.IsAlwaysCallable f }
    requires uses { Uses t (F.post f) k }
    ensures { variables result ≡ spec.steps w.now t 20 (variables x) }
{
    let mut y = x;
    for n in 0..20 {
        y = step(y, f(y.b, y.c, y.d), k, w[t + n]);
    }
    y
}

// All 80 steps.
fn steps(w: &[u32; 80], x: Working) -> Working
    ensures { variables result ≡ spec.steps w.now 0 80 (variables x) }
{
    let y = twenty_steps(w, 0, ch, 0x5a827999, x);
    let z = twenty_steps(w, 20, parity, 0x6ed9eba1, y);
    let v = twenty_steps(w, 40, maj, 0x8f1bbcdc, z);
    twenty_steps(w, 60, parity, 0xca62c1d6, v)
}

// The variables added to the hash value h.
fn added(h: [u32; 5], x: Working) -> [u32; 5]
    ensures { result ≡ spec.added h (variables x) }
{
    [
        x.a.wrapping_add(h[0]),
        x.b.wrapping_add(h[1]),
        x.c.wrapping_add(h[2]),
        x.d.wrapping_add(h[3]),
        x.e.wrapping_add(h[4]),
    ]
}

// The hash value after h, by the block at a place of s.
pub fn compress(h: [u32; 5], s: &[u8], at: usize) -> [u32; 5]
    requires { at + 64 ≤ length s.now }
    ensures { result ≡ spec.compress h (take 64 (drop at s.now)) }
{
    let w = schedule(s, at);
    let x = Working {
        a: h[0],
        b: h[1],
        c: h[2],
        d: h[3],
        e: h[4],
    };
    added(h, steps(&w, x))
}
