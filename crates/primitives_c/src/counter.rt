// Counter mode with AES-256: with a counter of 128 bits, and in place.
ghost use Rattle.std.specs.Prelude.{◌≡◌};
ghost use Rattle.primitives.specs.Results.{end, ctr128, ctr_in_place};

// The text with the key stream added.
#[unsafe(no_mangle)]
pub extern "C" fn primitives_ctr128(
    key: &[u8],
    first_counter: &[u8],
    text: &[u8],
    out: &mut [u8],
) -> u32
    ensures { end result out.new ≡ ctr128 key.now first_counter.now text.now out.old }
{
    primitives::counter::primitives_ctr128(key, first_counter, text, out)
}

// The text with the key stream added, in its place. The whole counter block counts if `wide` is not 0, and its last word if it is.
#[unsafe(no_mangle)]
pub extern "C" fn primitives_ctr_in_place(
    key: &[u8],
    first_counter: &[u8],
    wide: u32,
    text: &mut [u8],
) -> u32
    ensures { end result text.new ≡ ctr_in_place key.now first_counter.now wide text.old }
{
    primitives::counter::primitives_ctr_in_place(key, first_counter, wide, text)
}
