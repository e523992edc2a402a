//! The dumps of a hibernation image: of a loader into which it can be resumed, and of the machine that it saved.

mod adding;
mod begun;
mod headed;
mod laying;
mod loader;
mod made;
mod saved_machine;

pub use headed::{Headed, heading_in};
pub use loader::{loader_from, loader_of};
pub use made::{Asked, Made};
pub use saved_machine::{machine_from, machine_of};
