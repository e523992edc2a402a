/// The most bad pages that a header block has room for.
pub const MOST_BAD: usize = 630;

/// The bounds of the blocks that an image may name.
#[derive(Clone, Copy, Debug, PartialEq, Eq)]
pub struct Limits {
    /// The number of blocks of the file or the device.
    pub blocks: u32,
    /// The block of the area's header.
    pub header: u32,
    /// The last block of the area, if the area is known to begin at block 0; else at least the last block of the file.
    pub last: u32,
    /// The bad pages of the area, followed by zeros.
    pub bad: [u32; MOST_BAD],
}
