use page_core::{Failed, NoMemory};
use thiserror::Error;

/// Why the core file of an image wasn't written, or not all of it.
#[derive(Clone, Copy, Debug, PartialEq, Eq, Error)]
pub enum Stop {
    /// The header block, if the disk has it, isn't marked.
    #[error("no image")]
    NoImage,
    /// The header block, or the first named block that has findings, was refused; the findings were reported.
    #[error("findings")]
    Refused,
    /// The info page counts more page frames than a disk has blocks, which is possible if pages of zeros have no data
    /// page.
    #[error("too many page frames")]
    TooMany,
    /// The image wasn't the same when it was read again.
    #[error("the image changed")]
    Changed,
    #[error("the sink failed")]
    Sink,
    #[error("no memory")]
    Memory,
}

impl From<NoMemory> for Stop {
    ghost use Rattle.std.specs.Prelude.{◌≡◌};
    ghost use Rattle.image_core.specs.declared.stop.Stop.TheVariants.{Memory};

    ghost from_gives = { λ _ stop. stop ≡ Memory };

    fn from(_: NoMemory) -> Stop {
        Stop::Memory
    }
}

impl From<Failed> for Stop {
    ghost use Rattle.std.specs.Prelude.{◌≡◌};
    ghost use Rattle.image_core.specs.declared.stop.Stop.TheVariants.{Sink};

    ghost from_gives = { λ _ stop. stop ≡ Sink };

    fn from(_: Failed) -> Stop {
        Stop::Sink
    }
}
