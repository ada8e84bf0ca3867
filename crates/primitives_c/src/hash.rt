// SHA-1, SHA-256 and HMAC-SHA-256.
ghost use Rattle.std.specs.Prelude.{◌≡◌};
ghost use Rattle.primitives.specs.Results.{end, sha1_digest, sha256_digest, hmac_sha256_mac};

// The digest of a message.
#[unsafe(no_mangle)]
pub extern "C" fn primitives_sha1(message: &[u8], out: &mut [u8]) -> u32
    ensures { end result out.new ≡ sha1_digest message.now out.old }
{
    primitives::hash::primitives_sha1(message, out)
}

// The digest of a message.
#[unsafe(no_mangle)]
pub extern "C" fn primitives_sha256(message: &[u8], out: &mut [u8]) -> u32
    ensures { end result out.new ≡ sha256_digest message.now out.old }
{
    primitives::hash::primitives_sha256(message, out)
}

// The MAC of a message, which is handed over in three parts.
#[unsafe(no_mangle)]
pub extern "C" fn primitives_hmac_sha256(key: &[u8], message: &[u8], out: &mut [u8]) -> u32
    ensures { end result out.new ≡ hmac_sha256_mac key.now message.now out.old }
{
    primitives::hash::primitives_hmac_sha256(key, message, out)
}
