use expanded_disk::Index;
use image_differ::Side;

/// A compressed image that is whole.
#[derive(Drop)]
pub(crate) struct Compressed {
    /// The block of the header.
    pub header: u32,
    pub index: Index,
}

/// A side whose image is compressed, and whole.
#[derive(Drop)]
pub(crate) struct Whole<D, R> {
    pub side: Side<D, R>,
    pub index: Index,
}
