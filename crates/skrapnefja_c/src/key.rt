// Wrapped master keys.
ghost use Rattle.std.specs.Prelude.{◌≡◌};
ghost use Rattle.key_wrap.specs.Calls.{wrap_key, unwrap_key};
ghost use Rattle.skrapnefja.specs.Results.{plain_result, result_of};

// Wraps a key under a key-encryption key: 40 bytes.
#[unsafe(no_mangle)]
pub extern "C" fn skrapnefja_wrap_key(
    kek: &[u8],
    key: &[u8],
    out: &mut [u8],
    written: &mut u64,
) -> u32
    ensures { plain_result result out.new written.new ≡ result_of (wrap_key kek.now key.now out.old) written.old }
{
    skrapnefja::key::skrapnefja_wrap_key(kek, key, out, written)
}

// Unwraps a wrapped key of 40 bytes: writes the key, 32 bytes.
#[unsafe(no_mangle)]
pub extern "C" fn skrapnefja_unwrap_key(
    kek: &[u8],
    wrapped_key: &[u8],
    out: &mut [u8],
    written: &mut u64,
) -> u32
    ensures { plain_result result out.new written.new ≡ result_of (unwrap_key kek.now wrapped_key.now out.old) written.old }
{
    skrapnefja::key::skrapnefja_unwrap_key(kek, wrapped_key, out, written)
}
