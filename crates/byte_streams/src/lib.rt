//! Where the program's bytes come from and go to: sources, sinks, the lines that are printed, those of facts too, and
//! the standard streams themselves.
#![tactic(auto)]

mod calls;
mod facts;
mod filling;
mod line;
mod memory;
mod put;
mod sink;
mod source;
mod standard;
mod streams;

pub use facts::{Facts, Name, is_printable, put_hex_word, put_name, put_numbers, put_text};
pub use filling::fill;
pub use line::Line;
pub use memory::{MemSink, MemSource};
pub use put::put_all;
pub use sink::Sink;
pub use source::Source;
pub use standard::{Held, hold, is_output, sync_output};
pub use streams::{StdSink, StdSource};
