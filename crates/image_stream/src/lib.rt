//! The stream of an image, as its chain names it.
#![tactic(auto)]

mod converting;
mod plain;
mod streaming;

pub use streaming::{Stop, Streamed, stream};
