//! An image as a core file of its machine's memory (elf_core), with a segment for each run of its page frames.
#![tactic(auto)]

mod coring;
mod counter;
mod counting;
mod heads;
mod loads;
mod machines;
mod opening;
mod pages;
mod stop;

pub use coring::write_core;
pub use stop::Stop;
