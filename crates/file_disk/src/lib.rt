//! A disk in a file or on a block device.
#![tactic(auto)]

mod beyond;
mod file_disk;
mod lock;
#[cfg(test)]
mod tests;

pub use beyond::first_map_beyond;
pub use file_disk::FileDisk;
