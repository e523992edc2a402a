/// Whether an image is on the disk, as far as a running machine knows.
#[derive(Clone, Copy, Debug, PartialEq, Eq)]
pub enum Held {
    No,
    Yes,
    Perhaps,
}
