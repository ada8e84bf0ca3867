// SHA-1, SHA-256 and HMAC-SHA-256.
ghost use Rattle.std.specs.Prelude.{◌≡◌};
ghost use Rattle.primitives.specs.Results.{end, sha1_digest, sha256_digest, hmac_sha256_mac};

use hmac::mac;
use octets::slice::copy_at;

// The digest of a message.
#[tactic(auto, unfolding(crate::specs::Results::sha1_digest, crate::specs::Results::done_if))]
pub fn primitives_sha1(message: &[u8], out: &mut [u8]) -> u32
    ensures { end result out.new ≡ sha1_digest message.now out.old }
{
    if out.len() < 20 {
        return 0;
    }
    copy_at(&sha1_hash::digest(message), out, 0);
    1
}

// The digest of a message.
#[tactic(auto, unfolding(crate::specs::Results::sha256_digest, crate::specs::Results::done_if))]
pub fn primitives_sha256(message: &[u8], out: &mut [u8]) -> u32
    ensures { end result out.new ≡ sha256_digest message.now out.old }
{
    if out.len() < 32 {
        return 0;
    }
    copy_at(&sha256::digest(message), out, 0);
    1
}

// The MAC of a message, which is handed over in three parts.
#[tactic(auto, unfolding(crate::specs::Results::hmac_sha256_mac, crate::specs::Results::done_if))]
pub fn primitives_hmac_sha256(key: &[u8], message: &[u8], out: &mut [u8]) -> u32
    ensures { end result out.new ≡ hmac_sha256_mac key.now message.now out.old }
{
    if out.len() < 32 {
        return 0;
    }
    let p = message.len() / 3;
    let q = message.len() - p;
    let code = mac(key, &message[..p], &message[p..q], &message[q..]);
    copy_at(&code, out, 0);
    1
}
