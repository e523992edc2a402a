/// What was shown.
#[derive(Clone, Copy, Debug, PartialEq, Eq)]
pub enum Shown {
    /// What is written in the header block, and the facts that it leads to.
    Area,
    /// The file or the device has no such block, or it couldn't be read.
    NoHeader,
}
