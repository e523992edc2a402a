//! A disk that shows a waiting user how much of it was read and written.

mod meter;
mod progress_disk;

pub use meter::Meter;
pub use progress_disk::ProgressDisk;
