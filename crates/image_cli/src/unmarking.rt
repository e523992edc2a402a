//! Takes back the mark in the header block of an area, so that its image is discarded.

mod discarding;

pub use discarding::{Discarded, Fault, discard};
