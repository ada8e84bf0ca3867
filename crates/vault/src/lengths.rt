// The length of a file by that of its cleartext, and back, by the combo.
ghost use Rattle.std.specs.Prelude.{◌≡◌, ◌≤◌};
ghost use Rattle.frame.specs.Layout.{file_length, clear_length, right_length};
ghost use Rattle.vault.specs.Vault.{sizes_of};
ghost use Rattle.vault.specs.Under.{sizes_in};

use crate::record::Combo;
use crate::sizes::{ComboSizes, sizes_of};
use frame::chunks;

// The length of the file of a cleartext of n bytes, within the limit.
pub fn file_length(combo: Combo, n: usize) -> usize
    requires { n ≤ 16777216 }
    ensures { result ≡ file_length (sizes_of combo) n }
{
    let z = sizes_of(combo);
    z.header + n + z.overhead * chunks(n)
}

// The cleartext's length by the length rule, by the sizes z.
fn clear_by(z: ComboSizes, l: usize) -> usize
    requires { z.overhead ≤ 48 }
    ensures { result ≡ clear_length (sizes_in z) l }
{
    let rest = l.saturating_sub(z.header);
    let full = 32768 + z.overhead;
    rest / full * 32768 + (rest % full).saturating_sub(z.overhead)
}

// Can a file have l bytes, by the sizes z?
fn right_by(z: ComboSizes, l: usize) -> bool
    requires { z.overhead ≤ 48 }
    ensures { result ≡ right_length (sizes_in z) l }
{
    if l < z.header {
        return false;
    }
    let left = (l - z.header) % (32768 + z.overhead);
    if left > 0 && left <= z.overhead {
        return false;
    }
    clear_by(z, l) <= 16777216
}

// The cleartext's length by the length rule; it means something only where `right_length` holds.
pub fn clear_length(combo: Combo, l: usize) -> usize
    ensures { result ≡ clear_length (sizes_of combo) l }
{
    clear_by(sizes_of(combo), l)
}

// Can a file have l bytes?
pub fn right_length(combo: Combo, l: usize) -> bool
    ensures { result ≡ right_length (sizes_of combo) l }
{
    right_by(sizes_of(combo), l)
}
