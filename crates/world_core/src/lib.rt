//! The simulated machine as a whole: it takes events, and acts on its page frames and its disk.
#![tactic(auto)]

mod boot;
mod hibernation;
mod power;
mod resume;
mod shrinking;
mod tasks;
mod waking;
mod world;

pub use machine::Hardware;
pub use world::World;
