// RFC 3629, character after character: is a text well-formed UTF-8, and proper text, as a name must be?
#![tactic(auto)]

ghost use Rattle.std.specs.Prelude.{◌≡◌, true, false, List, ◌∷◌, ℕ, ◌≤◌, ◌<◌, ◌+◌, length, drop, MatchOption, IfSome, IfNone};
ghost use Rattle.std.proofs.Math.Option.{none, some};
ghost use Rattle.utf8.specs.Utf8.{well_formed};
ghost use Rattle.utf8.specs.ProperText.{proper_text};
ghost use Rattle.utf8.specs.Character.{character};
ghost use Rattle.utf8.specs.Continued.{tails_from, goes_on, Passed};

// What is awaited behind the first byte of a character: so many tails, the first of them from low to high.
#[derive(Clone, Copy)]
struct Awaited {
    tails: u8,
    low: u8,
    high: u8,
}

// Behind the first byte of a character of two bytes or more, by the rows of the grammar; none where a byte begins no such character.
#[tactic(auto, using(crate::proofs::FirstByte::rows))]
fn behind(b: u8) -> Option<Awaited>
    requires { 0x80 ≤ b }
    ensures tails { MatchOption result ((s : List ℕ) → well_formed (b ∷ s) ≡ false) (λ w. (s : List ℕ) → well_formed (b ∷ s) ≡ goes_on w s) }
    ensures no_ascii { IfSome result (λ w. 0x80 ≤ w.low) }
{
    let (tails, low, high) = match b {
        0xc2..=0xdf => (1, 0x80, 0xbf),
        0xe0 => (2, 0xa0, 0xbf),
        0xe1..=0xec | 0xee..=0xef => (2, 0x80, 0xbf),
        0xed => (2, 0x80, 0x9f),
        0xf0 => (3, 0x90, 0xbf),
        0xf1..=0xf3 => (3, 0x80, 0xbf),
        0xf4 => (3, 0x80, 0x8f),
        _ => return None,
    };
    Some(Awaited { tails, low, high })
}

// Do the tails that w awaits stand in s from j on?
fn tails_at(s: &[u8], j: usize, w: Awaited) -> bool
    requires { (j ≤ length s.now) × (0x80 ≤ w.low) }
    ensures value { result ≡ tails_from w.tails w.low w.high (drop j s.now) }
    ensures tails_in_bounds { result ≡ true → (j + w.tails ≤ length s.now) × Passed s.now j (j + w.tails) }
{
    let n = w.tails as usize;
    if s.len() - j < n {
        return false;
    }
    let mut low = w.low;
    let mut high = w.high;
    for k in 0..n {
        let b = s[j + k];
        if b < low || high < b {
            return false;
        }
        low = 0x80;
        high = 0xbf;
    }
    true
}

/// How many bytes the character at i has, if one stands there.
pub fn char_size(s: &[u8], i: usize) -> Option<usize>
    requires { i < length s.now }
    ensures s_value { IfNone result ((character (drop i s.now) ≡ none) × (well_formed (drop i s.now) ≡ false)) }
    ensures result_in_bounds { IfSome result (λ n. (1 ≤ n) × (i + n ≤ length s.now) × Passed s.now (i + 1) (i + n)) }
    ensures s_value_2 { IfSome result (λ n. well_formed (drop i s.now) ≡ well_formed (drop (i + n) s.now)) }
    ensures by_index { IfSome result (λ n. (c : ℕ) × (character (drop i s.now) ≡ some (c, drop (i + n) s.now))) }
{
    let b = s[i];
    if b < 0x80 {
        return Some(1);
    }
    let w = behind(b)?;
    if !tails_at(s, i + 1, w) {
        return None;
    }
    Some(1 + w.tails as usize)
}

// How many bytes the character at i has, if one that a name may have stands there.
fn proper_size(s: &[u8], i: usize) -> Option<usize>
    requires { i < length s.now }
    ensures s_value { IfNone result (proper_text (drop i s.now) ≡ false) }
    ensures result_in_bounds { IfSome result (λ n. (1 ≤ n) × (i + n ≤ length s.now) × (proper_text (drop i s.now) ≡ proper_text (drop (i + n) s.now))) }
{
    let b = s[i];
    if b == 0x00 || b == b'/' {
        return None;
    }
    char_size(s, i)
}

// Is it proper text: well-formed UTF-8, with no zero byte and no '/'?
pub fn proper_text(s: &[u8]) -> bool
    ensures { result ≡ proper_text s.now }
{
    let mut i = 0;
    // Kept: each step is by the size of a character.
    while i < s.len() {
        let Some(n) = proper_size(s, i) else {
            return false;
        };
        i += n;
    }
    true
}
