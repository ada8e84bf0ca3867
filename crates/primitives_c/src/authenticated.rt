// AES-256-GCM.
ghost use Rattle.std.specs.Prelude.{◌≡◌};
ghost use Rattle.primitives.specs.Results.{end, gcm_seal, gcm_open};

// The ciphertext, and then the tag.
#[unsafe(no_mangle)]
pub extern "C" fn primitives_gcm_seal(
    key: &[u8],
    nonce: &[u8],
    aad: &[u8],
    cleartext: &[u8],
    out: &mut [u8],
) -> u32
    ensures { end result out.new ≡ gcm_seal key.now nonce.now aad.now cleartext.now out.old }
{
    primitives::authenticated::primitives_gcm_seal(key, nonce, aad, cleartext, out)
}

// The cleartext, if the tag is right.
#[unsafe(no_mangle)]
pub extern "C" fn primitives_gcm_open(
    key: &[u8],
    nonce: &[u8],
    aad: &[u8],
    sealed: &[u8],
    out: &mut [u8],
) -> u32
    ensures { end result out.new ≡ gcm_open key.now nonce.now aad.now sealed.now out.old }
{
    primitives::authenticated::primitives_gcm_open(key, nonce, aad, sealed, out)
}
