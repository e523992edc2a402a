//! Waking after a suspend to both: takes the mark of the written image back, and the machine runs with the memory that
//! it kept (hibernation mode "suspend", kernel/power/hibernate.c; swsusp_unmark, kernel/power/swap.c).

mod phase;
mod waker;

pub use phase::Phase;
pub use waker::Waker;
