use thiserror::Error;

/// Why a named block can't be a page of an image.
#[derive(Clone, Copy, Debug, PartialEq, Eq, Error)]
pub enum BlockFault {
    /// Block 0, which stands for no block.
    #[error("block 0")]
    Zero,
    /// The block lies past the end of the file or the device.
    #[error("block {0} is beyond the file")]
    BeyondFile(u64),
    /// The block lies past the end of the area (`last_page`).
    #[error("block {0} is beyond the last page")]
    BeyondLast(u64),
    /// The block is a bad page of the area (`badpages`).
    #[error("block {0} is a bad page")]
    Bad(u64),
    /// The block is the header's, or was named before: by an entry, a link or the header.
    #[error("block {0} is named already")]
    Again(u64),
    /// A read of the block failed.
    #[error("block {0} can't be read")]
    Unread(u64),
}

/// A named block, its place, and whether it was read. Maps count from 1.
#[derive(Clone, Copy, Debug, PartialEq, Eq)]
pub enum Visit {
    /// A map that the header or the link of the map before names.
    Map {
        map: u32,
        block: u64,
        answer: Result<(), BlockFault>,
    },
    /// A page of the image that an entry of a map, from 0 to 510, names. `at` is the map's block.
    Entry {
        map: u32,
        at: u64,
        entry: u32,
        block: u64,
        answer: Result<(), BlockFault>,
    },
}
