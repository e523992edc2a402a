use crate::StreamFault;
use page_core::NoMemory;
use plain_machine::{Left, NoSwap};
use thiserror::Error;

/// Why an image doesn't come in.
#[derive(Clone, Copy, Debug, PartialEq, Eq, Error)]
pub enum InStop {
    #[error("no memory")]
    NoMemory,
    /// The swap area can't be used.
    #[error("no swap area: {0}")]
    NoSwap(NoSwap),
    /// Fewer slots are free than the image may need: its pages and 1026 more.
    #[error("{free} free slots, of which {need} are needed")]
    NoSlots { free: u32, need: u32 },
    /// The stream isn't in its grammar.
    #[error("{0}")]
    Stream(StreamFault),
    /// A read of the disk failed. Says what is left of the image on the disk.
    #[error("a read failed, and the image is {0:?}")]
    ReadFault(Left),
    /// A write failed.
    #[error("a write failed, and the image is {0:?}")]
    WriteFault(Left),
    /// A sync failed.
    #[error("a sync failed, and the image is {0:?}")]
    SyncFault(Left),
}

impl From<NoMemory> for InStop {
    ghost use Rattle.std.specs.Prelude.{◌≡◌};
    ghost use Rattle.stream_in.specs.declared.stop.InStop.TheVariants as stop;

    ghost from_gives = { λ why result. result ≡ stop.NoMemory };

    fn from(_: NoMemory) -> InStop {
        InStop::NoMemory
    }
}

impl From<StreamFault> for InStop {
    ghost use Rattle.std.specs.Prelude.{◌≡◌};
    ghost use Rattle.stream_in.specs.declared.stop.InStop.TheVariants as stop;

    ghost from_gives = { λ fault result. result ≡ stop.Stream fault };

    fn from(fault: StreamFault) -> InStop {
        InStop::Stream(fault)
    }
}
