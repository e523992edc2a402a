//! The command of `swsusp_machine` that makes a dump from a core file.

mod faults;
mod making;

pub use making::from_core;
