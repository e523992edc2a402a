//! The memory of the simulated machine: page frames of 4096 bytes each.
#![tactic(auto)]

mod frames;

pub use frames::{FILLER, Frames};
