// Wrapped master keys.
ghost use Rattle.std.specs.Prelude.{◌≡◌};
ghost use Rattle.key_wrap.specs.Calls.{wrap_key, unwrap_key};
ghost use Rattle.skrapnefja.specs.Results.{plain_result, result_of};

use crate::ending::end;
use key_wrap::{unwrap_key, wrap_key};

// Wraps a key under a key-encryption key: 40 bytes.
pub fn skrapnefja_wrap_key(kek: &[u8], key: &[u8], out: &mut [u8], written: &mut u64) -> u32
    ensures { plain_result result out.new written.new ≡ result_of (wrap_key kek.now key.now out.old) written.old }
{
    end(wrap_key(kek, key, out), written)
}

// Unwraps a wrapped key of 40 bytes: writes the key, 32 bytes.
pub fn skrapnefja_unwrap_key(
    kek: &[u8],
    wrapped_key: &[u8],
    out: &mut [u8],
    written: &mut u64,
) -> u32
    ensures { plain_result result out.new written.new ≡ result_of (unwrap_key kek.now wrapped_key.now out.old) written.old }
{
    end(unwrap_key(kek, wrapped_key, out), written)
}
