// The calls on a single chunk. They are lent the content key and the header's nonce, and not the header's reserved bytes: a chunk does not depend
// on these, so the contracts hold for any. Nor does it depend on the encryption master key, and in SIV_GCM not on the MAC master key.
ghost use Rattle.std.specs.Prelude.{◌≡◌, ◌&&◌, cond, leb, List, ℕ, ◌+◌, ◌≤◌, length};
ghost use Rattle.octets.specs.Rows.{ended};
ghost use Rattle.aes_spec.specs.Cipher.{aes};
ghost use Rattle.frame.specs.Frame.{head_with};
ghost use Rattle.frame.specs.Single.{write_chunk, open_chunk};
ghost use Rattle.answer.specs.Meaning.{meaning};
ghost use Rattle.vault.specs.Vault.{sizes_of, codec_of};
ghost use Rattle.vault.specs.Under.{sealed_under, good_under, opened_under};

use aes::round_table::RoundTable;
use answer::Refusal;
use gcm::key::Key;
use vault::chunk::{FileKeys, key_tables, open_part};
use vault::record::Vault;
use vault::sizes::{head_right, sizes_of};

// Is n at least `low` and at most `high`?
// Kept: the contract of `(low..=high).contains(&n)` speaks of an order's answers and a flag of the range, and the proofs of the rows get longer.
fn within(low: usize, n: usize, high: usize) -> bool
    ensures { result ≡ (leb low n && leb n high) }
{
    low <= n && n <= high
}

// Writes a chunk under the content key to out, which has just its length.
fn seal_under(
    v: &Vault,
    key: &[u8],
    header_nonce: &[u8],
    number: u64,
    nonce: &[u8],
    cleartext: &[u8],
    out: &mut [u8],
)
    requires key_len { (length key.now ≡ 32) × (length header_nonce.now ≡ (sizes_of v.now.combo).nonce) × (length nonce.now ≡ (sizes_of v.now.combo).nonce) }
    requires cleartext_len_bound { (length cleartext.now ≤ 32768) × (length out.old ≡ length cleartext.now + (sizes_of v.now.combo).overhead) }
    ensures { out.new ≡ sealed_under v.now.combo (aes 8 key.now) v.now.mac header_nonce.now number nonce.now cleartext.now }
{
    let t = RoundTable::new();
    let (w, m) = key_tables(&t, key);
    let content = Key {
        t: &t,
        w: &w,
        m: &m,
    };
    let keys = FileKeys {
        combo: v.combo,
        content,
        mac: &v.mac,
        header_nonce,
    };
    keys.seal(number, nonce, cleartext, out);
}

/// Writes the chunk of a number, a nonce and a cleartext of 1 to 32,768 bytes: 28 bytes more in SIV_GCM, 48 in SIV_CTRMAC. Rows 1, 4, 7.
pub fn write_chunk(
    v: Vault,
    key: &[u8],
    header_nonce: &[u8],
    number: u64,
    nonce: &[u8],
    cleartext: &[u8],
    out: &mut [u8],
) -> Result<usize, Refusal>
    ensures { (reserved : List ℕ) → ended (meaning result) out.new ≡ write_chunk (codec_of v) (head_with header_nonce.now reserved key.now) number nonce.now cleartext.now out.old }
{
    let z = sizes_of(v.combo);
    if !head_right(v.combo, header_nonce, key) {
        return Err(Refusal::KeyOrNonceSize);
    }
    if nonce.len() != z.nonce {
        return Err(Refusal::KeyOrNonceSize);
    }
    if !within(1, cleartext.len(), 32768) {
        return Err(Refusal::Length);
    }
    let n = cleartext.len() + z.overhead;
    if out.len() < n {
        return Err(Refusal::Room);
    }
    let to = &mut out[..n];
    seal_under(&v, key, header_nonce, number, nonce, cleartext, to);
    Ok(n)
}

// Writes the cleartext of a good chunk to out, which has just its length. Of a chunk that is not good nothing is written.
// Kept: the answer is the flag alone; the clause `out_after` says what `out` holds where it is false too.
fn open_under(
    v: &Vault,
    key: &[u8],
    header_nonce: &[u8],
    number: u64,
    chunk: &[u8],
    out: &mut [u8],
) -> bool
    requires key_len { (length key.now ≡ 32) × (length header_nonce.now ≡ (sizes_of v.now.combo).nonce) }
    requires out_len_bound { (length out.old ≤ 32768) × (length chunk.now ≡ length out.old + (sizes_of v.now.combo).overhead) }
    ensures value { result ≡ good_under v.now.combo (aes 8 key.now) v.now.mac header_nonce.now number chunk.now }
    ensures out_after { out.new ≡ cond result (opened_under v.now.combo (aes 8 key.now) chunk.now) out.old }
{
    let t = RoundTable::new();
    let (w, m) = key_tables(&t, key);
    let content = Key {
        t: &t,
        w: &w,
        m: &m,
    };
    let keys = FileKeys {
        combo: v.combo,
        content,
        mac: &v.mac,
        header_nonce,
    };
    if !keys.good(number, chunk) {
        return false;
    }
    open_part(v.combo, &t, &w, chunk, 0, out);
    true
}

/// Opens a chunk under its number: writes its cleartext. Rows 1, 4, 7, 10 with that number.
pub fn open_chunk(
    v: Vault,
    key: &[u8],
    header_nonce: &[u8],
    number: u64,
    chunk: &[u8],
    out: &mut [u8],
) -> Result<usize, Refusal>
    ensures { (reserved : List ℕ) → ended (meaning result) out.new ≡ open_chunk (codec_of v) (head_with header_nonce.now reserved key.now) number chunk.now out.old }
{
    let z = sizes_of(v.combo);
    if !head_right(v.combo, header_nonce, key) {
        return Err(Refusal::KeyOrNonceSize);
    }
    if !within(z.overhead + 1, chunk.len(), 32768 + z.overhead) {
        return Err(Refusal::Length);
    }
    let n = chunk.len() - z.overhead;
    if out.len() < n {
        return Err(Refusal::Room);
    }
    if !open_under(&v, key, header_nonce, number, chunk, &mut out[..n]) {
        return Err(Refusal::Chunk(number));
    }
    Ok(n)
}
