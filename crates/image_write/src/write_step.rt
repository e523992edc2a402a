/// The result of one step of writing an image.
#[derive(Clone, Copy, Debug, PartialEq, Eq)]
pub enum WriteStep {
    /// Write `k` of `of` is made; more follow.
    More { k: u32, of: u32 },
    /// The last write is made.
    Done,
    /// The write failed.
    Fault,
}
