// AES-256 of one block: encryption and decryption.
ghost use Rattle.std.specs.Prelude.{◌≡◌};
ghost use Rattle.primitives.specs.Results.{end, aes256, aes256_decrypt};

// The block, enciphered.
#[unsafe(no_mangle)]
pub extern "C" fn primitives_aes256(key: &[u8], block: &[u8], out: &mut [u8]) -> u32
    ensures { end result out.new ≡ aes256 key.now block.now out.old }
{
    primitives::cipher::primitives_aes256(key, block, out)
}

// The block, deciphered.
#[unsafe(no_mangle)]
pub extern "C" fn primitives_aes256_decrypt(key: &[u8], block: &[u8], out: &mut [u8]) -> u32
    ensures { end result out.new ≡ aes256_decrypt key.now block.now out.old }
{
    primitives::cipher::primitives_aes256_decrypt(key, block, out)
}
