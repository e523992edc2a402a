//! The frame table: what it says of each page frame, and what a hibernation decides by it: which page frames are saved
//! and which are free, which are dropped first, and which take the copies (struct page, include/linux/mm_types.h;
//! saveable_page, enough_free_mem and swsusp_alloc, kernel/power/snapshot.c).
#![tactic(auto)]

mod prealloc;
mod reclaim;
mod states;
mod view;

pub use prealloc::{Short, enough, pick};
pub use reclaim::shrink;
pub use states::{PageFlags, entry, set_entry};
pub use view::{View, count_free, mark_all, saveable};
