// AES-256-CMAC and AES-256-SIV.
ghost use Rattle.std.specs.Prelude.{◌≡◌};
ghost use Rattle.primitives.specs.Results.{end, cmac256, siv_seal, siv_open};

// The tag of a message.
#[unsafe(no_mangle)]
pub extern "C" fn primitives_cmac256(key: &[u8], message: &[u8], out: &mut [u8]) -> u32
    ensures { end result out.new ≡ cmac256 key.now message.now out.old }
{
    primitives::deterministic::primitives_cmac256(key, message, out)
}

// The synthetic IV, and then the ciphertext.
#[unsafe(no_mangle)]
pub extern "C" fn primitives_siv_seal(
    mac_key: &[u8],
    enc_key: &[u8],
    ad_given: u32,
    ad: &[u8],
    cleartext: &[u8],
    out: &mut [u8],
) -> u32
    ensures { end result out.new ≡ siv_seal mac_key.now enc_key.now ad_given ad.now cleartext.now out.old }
{
    primitives::deterministic::primitives_siv_seal(mac_key, enc_key, ad_given, ad, cleartext, out)
}

// The cleartext, if the synthetic IV matches. It is known to match before the caller's buffer gets a byte.
#[unsafe(no_mangle)]
pub extern "C" fn primitives_siv_open(
    mac_key: &[u8],
    enc_key: &[u8],
    ad_given: u32,
    ad: &[u8],
    sealed: &[u8],
    out: &mut [u8],
) -> u32
    ensures { end result out.new ≡ siv_open mac_key.now enc_key.now ad_given ad.now sealed.now out.old }
{
    primitives::deterministic::primitives_siv_open(mac_key, enc_key, ad_given, ad, sealed, out)
}
