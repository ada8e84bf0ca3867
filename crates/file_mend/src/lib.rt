// A range of a file's cleartext replaced in place, under the vault's record.
#![tactic(auto)]

mod chunk;
mod chunks;
mod inside;
mod nonces;

ghost use Rattle.std.specs.Prelude.{◌≡◌};
ghost use Rattle.octets.specs.Rows.{ended};
ghost use Rattle.mend_spec.specs.Mend.{mend_file};
ghost use Rattle.answer.specs.Meaning.{meaning};
ghost use Rattle.vault.specs.Vault.{codec_of};

use crate::inside::mend_inside;
use crate::nonces::clash;
use answer::Refusal;
use file_parts::chunks::covering;
use file_parts::range::outside;
use vault::lengths::{clear_length, right_length};
use vault::record::Vault;
use vault::sizes::sizes_of;

/// Replaces the bytes of a file's cleartext from `from` on by `new`, in place, and answers their number. `nonces` has one nonce for each chunk that
/// covers the range, in order, none of which a chunk of the file has. Rows 1, 4, 6, 8, 9, 10 with the lowest covering chunk whose tag or MAC is wrong.
pub fn mend(
    v: Vault,
    file: &mut [u8],
    from: usize,
    new: &[u8],
    nonces: &[u8],
) -> Result<usize, Refusal>
    ensures { ended (meaning result) file.new ≡ mend_file (codec_of v) file.old from new.now nonces.now }
{
    let combo = v.combo;
    let k = covering(from, new.len());
    if nonces.len() != sizes_of(combo).nonce * k {
        return Err(Refusal::KeyOrNonceSize);
    }
    if !right_length(combo, file.len()) {
        return Err(Refusal::Length);
    }
    let n = clear_length(combo, file.len());
    if outside(n, from, new.len()) {
        return Err(Refusal::Range);
    }
    if clash(combo, k, nonces, file, n) {
        return Err(Refusal::RepeatedNonce);
    }
    mend_inside(v, file, n, from, new, nonces)
}
