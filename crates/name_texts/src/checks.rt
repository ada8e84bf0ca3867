// What the rows of several calls look at.
ghost use Rattle.std.specs.Prelude.{◌≡◌};
ghost use Rattle.name_spec.specs.Names as spec;

use utf8::proper_text;

// The most bytes of a directory ID.
pub const ID_LIMIT: usize = 36;

// The most bytes of a name.
pub const NAME_LIMIT: usize = 1020;

pub fn id_right(id: &[u8]) -> bool
    ensures { result ≡ spec.id_right id.now }
{
    if ID_LIMIT < id.len() {
        return false;
    }
    id.is_ascii()
}

pub fn name_right(name: &[u8]) -> bool
    ensures { result ≡ spec.name_right name.now }
{
    if name.len() < 1 {
        return false;
    }
    if NAME_LIMIT < name.len() {
        return false;
    }
    proper_text(name)
}

// Is a full name of n characters stored as it is?
pub fn short(threshold: u8, n: usize) -> bool
    ensures { result ≡ spec.short threshold n }
{
    n <= threshold as usize
}
