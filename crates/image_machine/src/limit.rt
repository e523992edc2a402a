ghost use Rattle.std.specs.Prelude.{◌≡◌};

use frame_sets::ZoneFault;
use machine::HardFault;
use page_core::NoMemory;
use thiserror::Error;

/// Why there is no machine.
#[derive(Clone, Copy, Debug, PartialEq, Eq, Error)]
pub enum Limit {
    /// The machine had more than 65,536 page frames.
    #[error("limit page frames 65536: memory pages {pages}")]
    Memory { pages: u64 },
    /// The area has more than 131,072 slots.
    #[error("limit slots 131072: last page {last}")]
    Slots { last: u32 },
    #[error("zones refused: {0}")]
    Zones(ZoneFault),
    /// The zones have another number of page frames than the machine had.
    #[error("page frames in zones {count}: memory pages {pages}")]
    Count { count: u32, pages: u64 },
    /// Slot 0, which holds the header, lies on another block.
    #[error("block of slot 0 {block}: offset {offset}")]
    Offset { block: u32, offset: u32 },
    /// A page frame that was saved isn't in any zone.
    #[error("page frame {number} lies in no zone")]
    Outside { number: u64 },
    /// The page frames that weren't saved leave no room for both tables.
    #[error("no room for the tables")]
    NoRoom,
    #[error("{0}")]
    Hardware(HardFault),
    /// A resume needs more free page frames than there are.
    #[error("free page frames {have}: needed {need}")]
    TooFew { have: u32, need: u64 },
    /// The tables that should be in the image aren't a machine's, or save other page frames than the image.
    #[error("tables: page frame {number}")]
    Tables { number: u32 },
}

/// Why nothing was made.
#[derive(Clone, Copy, Debug, PartialEq, Eq, Error)]
pub enum Stop {
    #[error("{0}")]
    Limit(Limit),
    #[error("no memory")]
    Memory,
}

impl From<NoMemory> for Stop {
    ghost use Rattle.std.specs.Prelude.{◌≡◌};
    ghost use Rattle.image_machine.specs.declared.limit.Stop.TheVariants as stop;

    ghost from_gives = { λ _ why. why ≡ stop.Memory };

    fn from(_: NoMemory) -> Stop {
        Stop::Memory
    }
}

impl From<Limit> for Stop {
    ghost use Rattle.std.specs.Prelude.{◌≡◌};
    ghost use Rattle.image_machine.specs.declared.limit.Stop.TheVariants as stop;

    ghost from_gives = { λ limit why. why ≡ stop.Limit limit };

    fn from(limit: Limit) -> Stop {
        Stop::Limit(limit)
    }
}
