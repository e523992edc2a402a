/// What a caller is asked for, or how the discard ended.
#[derive(Clone, Copy, Debug, PartialEq, Eq)]
pub enum Step {
    /// The block must be read into the buffer.
    Read { block: u64 },
    /// The buffer must be written to the block.
    Write { block: u64 },
    /// What was written must be on the disk before the answer.
    Sync,
    /// The mark was taken back, and the write synced.
    Discarded,
    /// The header block isn't marked. Nothing was written.
    NoImage,
    /// The original signature is an image's too, so there is nothing to take the mark back to. Nothing was written.
    NoOriginal,
    /// A call failed.
    Failed { left: Left },
}

/// What a failed call leaves.
#[derive(Clone, Copy, Debug, PartialEq, Eq)]
pub enum Left {
    /// The read failed: the disk is as it was.
    Same,
    /// The write or the sync failed: the image is still present, or it was taken back.
    Unsure,
}
