use image_format::AreaFault;
use thiserror::Error;

/// Why a swap area can't be used. The variants are in the order of the tests.
#[derive(Clone, Copy, Debug, PartialEq, Eq, Error)]
pub enum NoSwap {
    /// The block carries the signature of an image.
    #[error("an image is there")]
    Image,
    /// A version 0 area.
    #[error("a version 0 area")]
    Old,
    /// No signature of a swap area.
    #[error("no signature of a swap area: {sig:?}")]
    Signature { sig: [u8; 10] },
    /// The version isn't 1.
    #[error("version {version}")]
    Version { version: u32 },
    /// More than 630 bad pages.
    #[error("{count} bad pages")]
    BadCount { count: u32 },
    /// The area has no slot except the header's.
    #[error("last page 0")]
    LastZero,
    /// The first bad page that is 0 or above the last slot.
    #[error("bad page {slot} is no slot")]
    BadEntry { slot: u32 },
    /// A slot lies on no block of the disk.
    #[error("last page {last}, and {blocks} blocks")]
    Short { last: u32, blocks: u32 },
    /// The machine has another number of slots.
    #[error("last page {last}, and a table of {slots} slots")]
    Misfit { last: u32, slots: u32 },
    /// The slot table has other bad slots.
    #[error("other bad slots")]
    BadSet,
}

impl From<AreaFault> for NoSwap {
    ghost use Rattle.std.specs.Prelude.{◌≡◌};
    ghost use Rattle.plain_machine.specs.UsableArea.{no_swap_at};

    ghost from_gives = { λ why result. result ≡ no_swap_at why };

    fn from(why: AreaFault) -> NoSwap {
        match why {
            AreaFault::Version { version } => NoSwap::Version { version },
            AreaFault::BadCount { count } => NoSwap::BadCount { count },
            AreaFault::LastZero => NoSwap::LastZero,
            AreaFault::BadEntry { slot } => NoSwap::BadEntry { slot },
        }
    }
}
