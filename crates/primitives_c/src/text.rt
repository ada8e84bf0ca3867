// Base32, base64url and proper text.
ghost use Rattle.std.specs.Prelude.{◌≡◌};
ghost use Rattle.utf8.specs.ProperText.{proper_text};
ghost use Rattle.primitives.specs.Results.{end, base32_text, base64url_text, told};
ghost use Rattle.primitives.specs.Decoding.{decode_end, base64url_bytes};

// The 32 characters of 20 bytes.
#[unsafe(no_mangle)]
pub extern "C" fn primitives_base32(data: &[u8], out: &mut [u8]) -> u32
    ensures { end result out.new ≡ base32_text «data».now out.old }
{
    primitives::text::primitives_base32(data, out)
}

// The text of the bytes, with padding unless `padded` is 0.
#[unsafe(no_mangle)]
pub extern "C" fn primitives_base64url_encode(data: &[u8], padded: u32, out: &mut [u8]) -> u32
    ensures { end result out.new ≡ base64url_text «data».now padded out.old }
{
    primitives::text::primitives_base64url_encode(data, padded, out)
}

// The bytes of an accepted text, and how many they are; or the place where the text is broken.
#[unsafe(no_mangle)]
pub extern "C" fn primitives_base64url_decode(
    text: &[u8],
    padded: u32,
    out: &mut [u8],
    written: &mut u64,
    at: &mut u64,
) -> u32
    ensures { decode_end result out.new written.new at.new ≡ base64url_bytes text.now padded out.old written.old at.old }
{
    primitives::text::primitives_base64url_decode(text, padded, out, written, at)
}

// Is it proper text?
#[unsafe(no_mangle)]
pub extern "C" fn primitives_proper_text(text: &[u8]) -> u32
    ensures { result ≡ told (proper_text text.now) }
{
    primitives::text::primitives_proper_text(text)
}
