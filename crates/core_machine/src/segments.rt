//! Core files of a machine's memory (ELF, System V gABI, "Object Files"; the names of structures and constants are
//! those of elf.h), read from a source in one pass: first what precedes the bytes of the segments, then their page
//! frames, one after another.

mod fault;
mod file_header;
mod filling;
mod identity;
mod kept;
mod numbers;
mod opening;
mod order;
mod pages;
mod segment;
mod table;

pub use fault::{Fault, Stop};
pub use opening::{Core, open};
pub use pages::read_page;
pub use segment::Segment;
