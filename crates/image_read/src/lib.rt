//! Reads an image of the swap area block by block: its map pages, its info page, its pages of frame numbers and the
//! saved pages (kernel/power/swap.c, swap_reader; kernel/power/snapshot.c, snapshot_write_next).
#![tactic(auto)]

mod area;
mod cause;
mod reader;

pub use cause::Cause;
pub use reader::{Expected, ReadStep, Reader};
