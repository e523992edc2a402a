//! The saved page frames of an image, one after another: their numbers, and their pages too.

mod frames;
mod numbers;

pub use frames::{Frames, Next};
pub use numbers::{NextNumber, Numbers};
