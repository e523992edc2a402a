/// A disk with an image, and the report that receives its findings.
#[derive(Drop)]
pub struct Side<D, R> {
    pub disk: D,
    pub report: R,
    /// The block of the image's header.
    pub header: u32,
}

/// One of two images.
#[derive(Clone, Copy, Debug, PartialEq, Eq)]
pub enum Which {
    First,
    Second,
}
