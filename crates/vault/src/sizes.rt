// The sizes of a combo.
ghost use Rattle.std.specs.Prelude.{◌≡◌};
ghost use Rattle.frame.specs.Frame.{own_head, head_right};
ghost use Rattle.vault.specs.Vault.{sizes_of};
ghost use Rattle.vault.specs.Under.{sizes_in};

use crate::record::Combo;

// Of a header, of a nonce, and of what a chunk adds to its cleartext.
#[derive(Clone, Copy)]
pub struct ComboSizes {
    pub header: usize,
    pub nonce: usize,
    pub overhead: usize,
}

pub fn sizes_of(combo: Combo) -> ComboSizes
    ensures { sizes_in result ≡ sizes_of combo }
{
    match combo {
        Combo::SivGcm => ComboSizes {
            header: 68,
            nonce: 12,
            overhead: 28,
        },
        Combo::SivCtrmac => ComboSizes {
            header: 88,
            nonce: 16,
            overhead: 48,
        },
    }
}

// Do the header's nonce and the content key have their sizes?
pub fn head_right(combo: Combo, nonce: &[u8], key: &[u8]) -> bool
    ensures { result ≡ head_right (sizes_of combo) (own_head nonce.now key.now) }
{
    nonce.len() == sizes_of(combo).nonce && key.len() == 32
}
