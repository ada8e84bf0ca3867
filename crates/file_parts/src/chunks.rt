// The chunks of a file: where they stand, which cover a range, and the lowest whose tag or MAC is wrong.
ghost use Rattle.std.specs.Prelude.{◌≡◌, ◌+◌, ◌-◌, ◌*◌, ◌/◌, ◌≤◌, ◌<◌, ◌^◌, min, length, MatchOption};
ghost use Rattle.aes_spec.specs.Cipher.{cipher};
ghost use Rattle.frame.specs.Layout.{covering, stored, file_length, chunk_at, lowest_bad};
ghost use Rattle.vault.specs.Vault.{sizes_of};
ghost use Rattle.vault.specs.Under.{sizes_in, good_under};

use vault::chunk::FileKeys;
use vault::record::Combo;
use vault::sizes::{ComboSizes, sizes_of};

// Where a chunk of at most `full` bytes ends in a file of l bytes.
fn end_of(start: usize, full: usize, l: usize) -> usize
    requires { (start ≤ l) × (l < 2 ^ 63) × (full < 2 ^ 63) }
    ensures { result ≡ min (start + full) l }
{
    (start + full).min(l)
}

// Where a chunk starts in a file, and where it ends.
#[derive(Clone, Copy)]
pub struct Span {
    pub start: usize,
    pub end: usize,
}

// The span of chunk i in a file of l bytes, n of them cleartext, by the sizes z.
fn span_by(z: ComboSizes, l: usize, n: usize, i: usize) -> Span
    requires { (z.overhead ≤ 48) × (l ≡ file_length (sizes_in z) n) × (l < 2 ^ 63) × (32768 * i < n) }
    ensures { (result.start ≡ z.header + stored (sizes_in z) * i) × (result.end ≡ min (result.start + stored (sizes_in z)) l) × (result.start + z.overhead < l) }
{
    let full = 32768 + z.overhead;
    let a = z.header + full * i;
    Span {
        start: a,
        end: end_of(a, full, l),
    }
}

// The span of chunk i in a file of l bytes, n of them cleartext.
pub fn span_of(combo: Combo, l: usize, n: usize, i: usize) -> Span
    requires { (l ≡ file_length (sizes_of combo) n) × (l < 2 ^ 63) × (32768 * i < n) }
    ensures { (result.start ≡ (sizes_of combo).header + stored (sizes_of combo) * i) × (result.end ≡ min (result.start + stored (sizes_of combo)) l) × (result.start + (sizes_of combo).overhead < l) }
{
    span_by(sizes_of(combo), l, n, i)
}

// Chunk i of a file of n bytes of cleartext.
pub fn chunk_of(combo: Combo, file: &[u8], n: usize, i: usize) -> &[u8]
    requires { (length file.now ≡ file_length (sizes_of combo) n) × (32768 * i < n) }
    ensures { (result.now ≡ chunk_at (sizes_of combo) file.now i) × (length result.now ≡ min 32768 (n - 32768 * i) + (sizes_of combo).overhead) }
{
    let span = span_of(combo, file.len(), n, i);
    &file[span.start..span.end]
}

// How many chunks cover a range, inside a cleartext or not. They are counted from the first on, so that no sum can wrap.
pub fn covering(from: usize, count: usize) -> usize
    requires { count < 2 ^ 63 }
    ensures { result ≡ covering from count }
{
    if count == 0 {
        return 0;
    }
    (from % 32768 + (count - 1)) / 32768 + 1
}

// One past the last chunk that covers the range.
pub fn end_chunk(from: usize, count: usize) -> usize
    requires { from + count < 2 ^ 63 }
    ensures { result ≡ from / 32768 + covering from count }
{
    from / 32768 + covering(from, count)
}

// The lowest chunk from `first` up to e whose tag or MAC is wrong.
pub fn lowest_bad(keys: &FileKeys, file: &[u8], n: usize, first: usize, e: usize) -> Option<usize>
    requires { (length file.now ≡ file_length (sizes_of keys.now.combo) n) × (32768 * e < n + 32768) × (first ≤ e) }
    ensures { MatchOption result (lowest_bad (sizes_of keys.now.combo) (good_under keys.now.combo (cipher 14 keys.now.content.w.now) keys.now.mac.now keys.now.header_nonce.now) file.now first (e - first) ≡ e) (λ i. (lowest_bad (sizes_of keys.now.combo) (good_under keys.now.combo (cipher 14 keys.now.content.w.now) keys.now.mac.now keys.now.header_nonce.now) file.now first (e - first) ≡ i) × (i < e)) }
{
    for i in first..e {
        let chunk = chunk_of(keys.combo, file, n, i);
        if !keys.good(i as u64, chunk) {
            return Some(i);
        }
    }
    None
}
