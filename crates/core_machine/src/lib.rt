//! The machine of a core file: its segments of memory, and a dump of a machine with that memory.
#![tactic(auto)]

mod heading;
mod laying;
mod making;
pub mod segments;
mod stop;

pub use making::machine_of_core;
pub use stop::Stop;
