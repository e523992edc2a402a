//! A hibernation and a resume from the first event to the last reply, over a machine that was made from a memory dump.
//! Runs of a world over a disk, its events with their replies, are defined here, with the laws of such runs.
#![tactic(auto)]

mod ending;
mod hibernation;
mod resumption;

pub use ending::Ended;
pub use hibernation::hibernate;
pub use resumption::resume;
