//! The pieces of a core file of a machine's memory, in the ELF format for 64-bit little-endian machines (System V
//! gABI, "Object Files"; the names of structures and constants are those of elf.h).
#![tactic(auto)]

mod headers;
pub mod machines;
mod notes;
mod pieces;

pub use headers::{file_header, load, note_header, padding, page_offset};
pub use notes::{note, section};
pub use pieces::Piece;
