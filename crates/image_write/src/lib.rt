//! Writes an image to the free slots of a swap area, one block per step (save_image and its callees,
//! kernel/power/swap.c).
#![tactic(auto)]

mod copies;
mod sets;
mod stream;
mod write_step;
mod writer;

pub use sets::Sets;
pub use write_step::WriteStep;
pub use writer::Writer;
