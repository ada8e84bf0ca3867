// One block: FIPS 180-4, 6.2.2.
ghost use Rattle.std.specs.Prelude.{◌≡◌, ◌+◌, ◌<◌, ◌≤◌, length, take, drop};
ghost use Rattle.hashing.specs.Operations.{plus};
ghost use Rattle.hashing.specs.Schedule.{extended};
ghost use Rattle.sha256.specs.Operations.{σ0, σ1};
ghost use Rattle.sha256.specs.Compression as spec;
ghost use Rattle.sha256.specs.Working.{variables};

use crate::constants::Constants;
use crate::operations::{big_sigma0, big_sigma1, small_sigma0, small_sigma1};
use hashing::operations::{ch, maj};
use hashing::words::load;

// The working variables.
#[derive(Clone, Copy)]
pub struct Working {
    pub a: u32,
    pub b: u32,
    pub c: u32,
    pub d: u32,
    pub e: u32,
    pub f: u32,
    pub g: u32,
    pub h: u32,
}

// A word of the schedule, by those 2, 7, 15 and 16 places before it. The nearest, which is known last, is added last.
fn next_word(a: u32, b: u32, c: u32, d: u32) -> u32
    ensures { result ≡ plus (plus (plus (σ1 a) b) (σ0 c)) d }
{
    d.wrapping_add(small_sigma0(c))
        .wrapping_add(b)
        .wrapping_add(small_sigma1(a))
}

// Writes W_16 to W_63 after the first 16 words.
fn extend(w: &mut [u32])
    requires { length w.old ≡ 64 }
    ensures { w.new ≡ extended spec.next_word (take 16 w.old) 48 }
{
    for t in 16..64 {
        w[t] = next_word(w[t - 2], w[t - 7], w[t - 15], w[t - 16]);
    }
}

// The message schedule of the block at a place of s.
// Kept: that of `sha1_hash` has another length and another next word, and a generic one would be lent both; a block is a place of s, as `hashing::words::load` takes it.
fn schedule(s: &[u8], at: usize) -> [u32; 64]
    requires { at + 64 ≤ length s.now }
    ensures { result ≡ spec.schedule (take 64 (drop at s.now)) }
{
    let mut w = [0u32; 64];
    load(s, at, &mut w);
    extend(&mut w);
    w
}

// What waits for e is added last.
fn temp1(e: u32, f: u32, g: u32, h: u32, k: u32, w: u32) -> u32
    ensures { result ≡ spec.T1 e f g h k w }
{
    h.wrapping_add(k)
        .wrapping_add(w)
        .wrapping_add(ch(e, f, g))
        .wrapping_add(big_sigma1(e))
}

fn temp2(a: u32, b: u32, c: u32) -> u32
    ensures { result ≡ spec.T2 a b c }
{
    big_sigma0(a).wrapping_add(maj(a, b, c))
}

// One step, with the values of K_t and W_t.
fn step(x: Working, k: u32, w: u32) -> Working
    ensures { variables result ≡ spec.step k w (variables x) }
{
    let one = temp1(x.e, x.f, x.g, x.h, k, w);
    let two = temp2(x.a, x.b, x.c);
    Working {
        a: one.wrapping_add(two),
        b: x.a,
        c: x.b,
        d: x.c,
        e: x.d.wrapping_add(one),
        f: x.e,
        g: x.f,
        h: x.g,
    }
}

// Step n, after the steps before it.
fn step_at(k: &Constants, w: &[u32; 64], n: usize, x: Working) -> Working
    requires { n < 64 }
    ensures { (s : spec.Variables) → variables x ≡ spec.steps w.now n s → variables result ≡ spec.steps w.now (n + 1) s }
{
    step(x, k.at(n), w[n])
}

// The eight steps from n on. After eight steps each variable is at its place again, so that none has to be moved.
fn eight_steps(k: &Constants, w: &[u32; 64], n: usize, x: Working) -> Working
    requires { n + 8 ≤ 64 }
    ensures { (s : spec.Variables) → variables x ≡ spec.steps w.now n s → variables result ≡ spec.steps w.now (n + 8) s }
{
    let x1 = step_at(k, w, n, x);
    let x2 = step_at(k, w, n + 1, x1);
    let x3 = step_at(k, w, n + 2, x2);
    let x4 = step_at(k, w, n + 3, x3);
    let x5 = step_at(k, w, n + 4, x4);
    let x6 = step_at(k, w, n + 5, x5);
    let x7 = step_at(k, w, n + 6, x6);
    step_at(k, w, n + 7, x7)
}

// All 64 steps.
fn steps(k: &Constants, w: &[u32; 64], x: Working) -> Working
    ensures { variables result ≡ spec.steps w.now 64 (variables x) }
{
    let mut y = x;
    for i in 0..8 {
        y = eight_steps(k, w, 8 * i, y);
    }
    y
}

// The variables added to the hash value v.
fn added(v: [u32; 8], x: Working) -> [u32; 8]
    ensures { result ≡ spec.added v (variables x) }
{
    [
        x.a.wrapping_add(v[0]),
        x.b.wrapping_add(v[1]),
        x.c.wrapping_add(v[2]),
        x.d.wrapping_add(v[3]),
        x.e.wrapping_add(v[4]),
        x.f.wrapping_add(v[5]),
        x.g.wrapping_add(v[6]),
        x.h.wrapping_add(v[7]),
    ]
}

// The hash value after v, by the block at a place of s.
pub fn compress(k: &Constants, v: [u32; 8], s: &[u8], at: usize) -> [u32; 8]
    requires { at + 64 ≤ length s.now }
    ensures { result ≡ spec.compress v (take 64 (drop at s.now)) }
{
    let w = schedule(s, at);
    let x = Working {
        a: v[0],
        b: v[1],
        c: v[2],
        d: v[3],
        e: v[4],
        f: v[5],
        g: v[6],
        h: v[7],
    };
    added(v, steps(k, &w, x))
}
