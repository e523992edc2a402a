//! The machine: its hardware, its fresh memory, and what its tasks may do.
#![tactic(auto)]

mod area;
mod dump;
mod flight;
mod fresh;
mod hardware;
mod machine;
mod parts;
mod regions;
mod swapping;
mod tables;
mod tasks;

pub use area::usable;
pub use dump::Dump;
pub use flight::Flight;
pub use fresh::{set_fresh, set_slots};
pub use hardware::{HardFault, Hardware, Parts};
pub use machine::Machine;
pub use tables::{has_bad_slots, slot_table, tables_fit};
