// Base32, base64url and proper text.
ghost use Rattle.std.specs.Prelude.{◌≡◌};
ghost use Rattle.utf8.specs.ProperText.{proper_text};
ghost use Rattle.primitives.specs.Results.{end, base32_text, base64url_text, told};
ghost use Rattle.primitives.specs.Decoding.{decode_end, base64url_bytes};

use encoding::{base32, base64url};
use utf8::proper_text;

// The 32 characters of 20 bytes.
#[tactic(auto, unfolding(crate::specs::Results::base32_text, crate::specs::Results::done_if))]
pub fn primitives_base32(data: &[u8], out: &mut [u8]) -> u32
    ensures { end result out.new ≡ base32_text «data».now out.old }
{
    if data.len() != 20 {
        return 0;
    }
    if out.len() < 32 {
        return 0;
    }
    base32::encode(data, out);
    1
}

// The text of the bytes, with padding unless `padded` is 0.
#[tactic(auto, unfolding(crate::specs::Results::base64url_text, crate::specs::Results::done_if))]
pub fn primitives_base64url_encode(data: &[u8], padded: u32, out: &mut [u8]) -> u32
    ensures { end result out.new ≡ base64url_text «data».now padded out.old }
{
    if 4294967296 < data.len() {
        return 0;
    }
    if out.len() < base64url::encoded_length(data.len(), padded != 0) {
        return 0;
    }
    base64url::encode(data, padded != 0, out);
    1
}

// The bytes of an accepted text, and how many they are; or the place where the text is broken.
#[tactic(auto, unfolding(crate::specs::Decoding::base64url_bytes))]
pub fn primitives_base64url_decode(
    text: &[u8],
    padded: u32,
    out: &mut [u8],
    written: &mut u64,
    at: &mut u64,
) -> u32
    ensures { decode_end result out.new written.new at.new ≡ base64url_bytes text.now padded out.old written.old at.old }
{
    match base64url::check(text, padded != 0) {
        Err(broken) => {
            *at = broken.0 as u64;
            0
        }
        Ok(n) => {
            if out.len() < n {
                return 0;
            }
            base64url::decode(text, padded != 0, out);
            *written = n as u64;
            1
        }
    }
}

// Is it proper text?
pub fn primitives_proper_text(text: &[u8]) -> u32
    ensures { result ≡ told (proper_text text.now) }
{
    u32::from(proper_text(text))
}
