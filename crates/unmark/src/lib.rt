//! Taking the mark of a header block back, one call of the disk at a time: a read, a write and a sync (swsusp_unmark,
//! kernel/power/swap.c). A waking and a settling begin with the read. A resume and an undo have the block already, and
//! begin with the write.
#![tactic(auto)]

mod unmarking;

pub use unmarking::{Unmark, UnmarkCall, UnmarkStep};
