ghost use Rattle.std.specs.Prelude.{⊤, [], ◌∷◌, codes};
ghost use Rattle.frame_table.specs.Flags.{bits_of};

use bitflags::{Flag, Flags, bitflag_items};

/// The flags of a page frame in the frame table (struct page's flags, as far as kernel/power/snapshot.c needs them).
/// All 16 bits are kept, even those without a name.
#[derive(Clone, Copy, PartialEq, Eq, Debug)]
pub struct PageFlags(u16);

bitflag_items! {
    impl PageFlags: u16 {
        const FREE = 1;
        const RESERVED = 2;
        const OFFLINE = 4;
        const GUARD = 8;
        const UNMAPPED = 16;
        const NOSAVE = 32;
        const CACHE = 64;
    }
}

impl Flags for PageFlags {
    type Bits = u16;

    ghost exact = { ⊤ };

    ghost table = { (codes "FREE", 1)
        ∷ (codes "RESERVED", 2)
        ∷ (codes "OFFLINE", 4)
        ∷ (codes "GUARD", 8)
        ∷ (codes "UNMAPPED", 16)
        ∷ (codes "NOSAVE", 32)
        ∷ (codes "CACHE", 64)
        ∷ [] };

    ghost set_of = { bits_of };

    fn flags<'a>() -> &'a [Flag<PageFlags>] {
        PageFlags::FLAGS
    }

    fn bits(&self) -> u16 {
        self.0
    }

    fn from_bits_retain(bits: u16) -> PageFlags {
        PageFlags(bits)
    }
}
