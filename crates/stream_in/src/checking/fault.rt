use thiserror::Error;

/// What is wrong with a stream.
#[derive(Clone, Copy, Debug, PartialEq, Eq)]
pub enum Kind {
    /// The info page's `image_pages` is 0 or above 65,536, or its `pages` isn't that of a Plain image.
    Counts,
    /// A frame number is 65,536 or more.
    Pfn,
    /// A frame number isn't above the one before.
    Order,
    /// The frame numbers don't fill their last page, and the word after them isn't 2^64-1.
    End,
    /// A byte follows the last page.
    Extra,
    /// The stream ends before its last page is whole.
    Short,
}

/// The first fault of a stream.
#[derive(Clone, Copy, Debug, PartialEq, Eq, Error)]
#[error("stream {kind:?} byte {at}")]
pub struct StreamFault {
    pub kind: Kind,
    /// The byte of the fault: that of the field `image_pages` or of the word at fault, or the first one too many; for
    /// `Short`, how many bytes there are.
    pub at: u64,
}
