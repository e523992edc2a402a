/// How an image stores a saved page that is all zero.
#[derive(Clone, Copy, Debug, PartialEq, Eq)]
pub enum Format {
    /// Every saved page has a data page, as in Linux.
    Plain,
    /// A saved page of zeros has no data page, and its frame number has bit 63 set. This is this project's own format.
    SkipZeros,
}
