//! How an image is given up, as a value that asks: it names the next call of the disk and is told how that went, so a
//! boot loader can embed it (kernel/power/swap.c, swsusp_unmark).

mod discard;
mod step;

pub use discard::Discard;
pub use step::{Left, Step};
