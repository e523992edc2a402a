//! Hibernating: takes a snapshot, writes its image into the blocks of free slots, and marks the header block
//! (hibernation_snapshot, kernel/power/hibernate.c; swsusp_write and mark_swapfiles, kernel/power/swap.c). The machine
//! is off then, or sleeps with its memory kept. Settling takes the mark of a held image back while the machine runs.
#![tactic(auto)]

mod begin;
mod hib;
mod mark;
mod phase;
mod settle;
mod undo;
pub mod waking;
mod write;

pub use hib::{Hib, Job};
pub use phase::Phase;
