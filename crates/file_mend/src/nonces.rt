// Are the lent nonces fresh?
ghost use Rattle.std.specs.Prelude.{◌≡◌, ◌||◌, ◌*◌, ◌≤◌, length};
ghost use Rattle.frame.specs.Layout.{chunks, repeats, file_length};
ghost use Rattle.vault.specs.Vault.{sizes_of};
ghost use Rattle.mend_spec.specs.Mend.{in_use, any_in_use};

use file_parts::chunks::chunk_of;
use file_parts::nonces::{nonce, repeats};
use octets::slice::equal;
use vault::record::Combo;
use vault::sizes::sizes_of;

// Is x the nonce of a chunk of a file of n bytes of cleartext?
fn in_use(combo: Combo, x: &[u8], file: &[u8], n: usize) -> bool
    requires { length file.now ≡ file_length (sizes_of combo) n }
    ensures { result ≡ in_use (sizes_of combo) x.now file.now 0 (chunks n) }
{
    let w = sizes_of(combo).nonce;
    let k = frame::chunks(n);
    for i in 0..k {
        let chunk = chunk_of(combo, file, n, i);
        if equal(x, &chunk[..w]) {
            return true;
        }
    }
    false
}

// Is one of the k nonces that of a chunk of a file of n bytes of cleartext?
fn any_in_use(combo: Combo, k: usize, nonces: &[u8], file: &[u8], n: usize) -> bool
    requires { ((sizes_of combo).nonce * k ≤ length nonces.now) × (length file.now ≡ file_length (sizes_of combo) n) }
    ensures { result ≡ any_in_use (sizes_of combo) k nonces.now file.now (chunks n) }
{
    let w = sizes_of(combo).nonce;
    for i in 0..k {
        if in_use(combo, nonce(w, nonces, i), file, n) {
            return true;
        }
    }
    false
}

// Are two of the k nonces equal, or is one that of a chunk of a file of n bytes of cleartext?
pub fn clash(combo: Combo, k: usize, nonces: &[u8], file: &[u8], n: usize) -> bool
    requires { ((sizes_of combo).nonce * k ≤ length nonces.now) × (length file.now ≡ file_length (sizes_of combo) n) }
    ensures { result ≡ (repeats (sizes_of combo).nonce k nonces.now || any_in_use (sizes_of combo) k nonces.now file.now (chunks n)) }
{
    repeats(sizes_of(combo).nonce, k, nonces) || any_in_use(combo, k, nonces, file, n)
}
