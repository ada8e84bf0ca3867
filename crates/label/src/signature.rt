// The signature of a label.
ghost use Rattle.std.specs.Prelude.{◌≡◌, true, false};
ghost use Rattle.octets.specs.Bytes.{same};
ghost use Rattle.encoding.specs.Base64url.{accepted, decoded};
ghost use Rattle.hmac.specs.Hmac.{hmac_sha256};

use encoding::base64url::{decode, decoded_length};
use hmac::mac;
use octets::slice::equal;

/// Is the third segment that of the MAC of what is signed?
pub fn signature_right(raw_key: &[u8], signed: &[u8], segment: &[u8]) -> bool
    requires { accepted false segment.now ≡ true }
    ensures { result ≡ same (hmac_sha256 raw_key.now signed.now) (decoded false segment.now) }
{
    if decoded_length(segment.len()) != 32 {
        return false;
    }
    let mut signature = [0u8; 32];
    decode(segment, false, &mut signature);
    let tag = mac(raw_key, signed, b"", b"");
    equal(&tag, &signature)
}
