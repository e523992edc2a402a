//! Memory dumps: files that carry a machine.
#![tactic(auto)]

mod dump;
mod extents;
mod fill;
mod front;
mod head;
mod header;
mod put;
mod read;
mod records;
mod write;
mod zone_list;

pub use dump::{DumpFault, DumpKind, DumpStop};
pub use read::read_dump;
pub use write::write_dump;
