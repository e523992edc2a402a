//! A disk over one that is only read from: what is written stays in memory.
#![tactic(auto)]

mod below;
mod kept;
mod original;
mod overlay;
mod room;

pub use below::{Lent, ReadOnly};
pub use original::Original;
pub use overlay::Overlay;
