//! The bytes of an image as a stream, tested against its grammar as they come: the counts of the info page, the frame
//! numbers and the end value after them, and the length (snapshot_write_next and load_header,
//! kernel/power/snapshot.c).

mod checker;
mod fault;
mod taking;

pub use checker::Checker;
pub use fault::{Kind, StreamFault};
