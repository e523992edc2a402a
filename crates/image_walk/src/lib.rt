//! Walks along the blocks that an image names, as a disk reads: the maps of its chain, and the pages of their entries.
#![tactic(auto)]

mod block_set;
mod limits;
mod looking;
mod naming;
mod visit;
mod walk;
mod walker;

pub use limits::Limits;
pub use visit::{BlockFault, Visit};
pub use walk::{Named, Walk};
pub use walker::{Walker, words_for};
