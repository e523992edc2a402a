use definitions::Field;
use thiserror::Error;

/// Why an image isn't resumed, by the names and numbers of the replies of `swsusp resume`.
#[derive(Clone, Copy, Debug, PartialEq, Eq, Error)]
pub enum Cause {
    /// The header block isn't marked.
    #[error("no image")]
    NoImage,
    /// The flags of the mark lack SF_NOCOMPRESS_MODE.
    #[error("compressed {flags}")]
    Compressed { flags: u32 },
    /// The hardware signature of the mark isn't the machine's.
    #[error("hw mismatch {image} own {own}")]
    HwMismatch { image: u32, own: u32 },
    /// The header names no first map.
    #[error("no chain")]
    NoChain,
    /// A block that an image may not name.
    #[error("bad block {block}")]
    BadBlock { block: u64 },
    /// A map has no next one, though more entries are wanted. Maps count from 1.
    #[error("chain ends {map}")]
    ChainEnds { map: u64 },
    /// The first field in which the image's identity isn't the machine's.
    #[error("mismatch {field:?}")]
    Mismatch { field: Field },
    /// The 390 bytes of an architecture's header aren't the machine's.
    #[error("mismatch architecture")]
    Architecture,
    /// The image counts another number of page frames than the machine.
    #[error("memory size {image} own {own}")]
    MemorySize { image: u64, own: u64 },
    /// Numbers of pages that don't fit the machine, each other, or the page frame numbers.
    #[error("bad counts {image_pages} {pages}")]
    BadCounts { image_pages: u64, pages: u64 },
    /// Not a page frame of the machine's memory.
    #[error("bad pfn {pfn}")]
    BadPfn { pfn: u64 },
    /// Number b isn't above number a, the one before it.
    #[error("pfn order {a} {b}")]
    PfnOrder { a: u64, b: u64 },
    /// The word after the last number isn't 2^64-1.
    #[error("pfn end {found}")]
    PfnEnd { found: u64 },
}
