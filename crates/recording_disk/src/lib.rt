//! A disk in memory that records its calls, for tests of power cuts.
#![tactic(auto)]

mod log_disk;
#[cfg(test)]
mod tests;

pub use log_disk::LogDisk;
