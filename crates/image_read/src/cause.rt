use frame_sets::packing::PfnFault;
use image_format::info::{BadCounts, Field};
use plain_machine::Reply;
use thiserror::Error;

/// Why an image can't be read.
#[derive(Clone, Copy, Debug, PartialEq, Eq, Error)]
pub enum Cause {
    /// The header names no first map.
    #[error("no chain")]
    NoChain,
    /// A block of the chain is the header's, or no slot lies on it.
    #[error("bad block {block}")]
    BadBlock { block: u64 },
    /// A map has no next map, but more entries are needed. Maps are counted from 1.
    #[error("chain ends {map}")]
    ChainEnds { map: u32 },
    /// The first field in which the image's identity isn't the machine's.
    #[error("mismatch {field:?}")]
    Mismatch { field: Field },
    /// The image's number of page frames isn't the machine's.
    #[error("memory size {image} own {own}")]
    MemorySize { image: u64, own: u64 },
    /// Numbers of pages that don't fit the machine, each other, or the frame numbers.
    #[error("bad counts {image_pages} {pages}")]
    BadCounts { image_pages: u64, pages: u64 },
    /// The number isn't a valid page frame number.
    #[error("bad pfn {pfn}")]
    BadPfn { pfn: u64 },
    /// Number b isn't above a, the one before.
    #[error("pfn order {a} {b}")]
    PfnOrder { a: u64, b: u64 },
    /// The word after the last number isn't 2^64-1.
    #[error("pfn end {found}")]
    PfnEnd { found: u64 },
}

impl From<PfnFault> for Cause {
    ghost use Rattle.std.specs.Prelude.{◌≡◌};
    ghost use Rattle.image_read.specs.Causes.{cause_of_numbers};

    ghost from_gives = { λ fault result. result ≡ cause_of_numbers fault };

    fn from(fault: PfnFault) -> Cause {
        match fault {
            PfnFault::BadPfn { pfn } => Cause::BadPfn { pfn },
            PfnFault::PfnOrder { a, b } => Cause::PfnOrder { a, b },
            PfnFault::PfnEnd { found } => Cause::PfnEnd { found },
        }
    }
}

impl From<BadCounts> for Cause {
    ghost use Rattle.std.specs.Prelude.{◌≡◌};
    ghost use Rattle.image_read.specs.Causes.{cause_of_counts};

    ghost from_gives = { λ bad result. result ≡ cause_of_counts bad };

    fn from(bad: BadCounts) -> Cause {
        Cause::BadCounts {
            image_pages: bad.image_pages,
            pages: bad.pages,
        }
    }
}

impl From<Cause> for Reply {
    ghost use Rattle.std.specs.Prelude.{◌≡◌};
    ghost use Rattle.image_read.specs.Causes.{reply_of};

    ghost from_gives = { λ cause result. result ≡ reply_of cause };

    fn from(cause: Cause) -> Reply {
        match cause {
            Cause::NoChain => Reply::NoChain,
            Cause::BadBlock { block } => Reply::BadBlock { block },
            Cause::ChainEnds { map } => Reply::ChainEnds { map },
            Cause::Mismatch { field } => Reply::Mismatch { field },
            Cause::MemorySize { image, own } => Reply::MemorySize { image, own },
            Cause::BadCounts { image_pages, pages } => Reply::BadCounts { image_pages, pages },
            Cause::BadPfn { pfn } => Reply::BadPfn { pfn },
            Cause::PfnOrder { a, b } => Reply::PfnOrder { a, b },
            Cause::PfnEnd { found } => Reply::PfnEnd { found },
        }
    }
}
