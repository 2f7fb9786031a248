// Which lines of a checked item are shown.
ghost use Rattle.std.specs.Prelude.{⊤, ◌≡◌, ◌==◌, [], ◌∷◌, codes};
ghost use Rattle.std.specs.Int.RustNames.{bit_and};

use bitflags::{Flag, Flags, bitflag_items};

/// Which lines of an item that is well are shown: the one on the whole of it, and one for each of its parts.
#[derive(Clone, Copy, Debug, PartialEq, Eq)]
pub struct Show(u8);

bitflag_items! {
    impl Show: u8 {
        const HEAD = 1;
        const PARTS = 2;
    }
}

impl Flags for Show {
    type Bits = u8;

    ghost exact = { ⊤ };

    ghost table = { (codes "HEAD", 1) ∷ (codes "PARTS", 2) ∷ [] };

    ghost set_of = { λ show. show.0 };

    fn flags<'a>() -> &'a [Flag<Show>] {
        Show::FLAGS
    }

    fn bits(&self) -> u8 {
        self.0
    }

    fn from_bits_retain(bits: u8) -> Show {
        Show(bits)
    }
}

impl Show {
    /// Whether the line on the whole item is shown.
    pub fn head(self) -> bool
        ensures { result ≡ (bit_and self.0 1 == 1) }
    {
        self.contains(Show::HEAD)
    }

    /// Whether the lines on its parts are shown.
    pub fn parts(self) -> bool
        ensures { result ≡ (bit_and self.0 2 == 2) }
    {
        self.contains(Show::PARTS)
    }
}
