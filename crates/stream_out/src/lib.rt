//! Hands out an image of a machine's memory as a stream of bytes, for a file or a pipe instead of a swap area
//! (snapshot_read, kernel/power/user.c, over snapshot_read_next, kernel/power/snapshot.c).
#![tactic(auto)]

mod cursor;
mod pages;
mod slots;
mod stream;

pub use slots::SlotsInUse;
pub use stream::StreamOut;
