//! What can be done with a memory dump beside a hibernation: find the first difference of two, make the one that a boot
//! leaves, list what one says of its machine, and print that list.
#![tactic(auto)]

mod difference;
mod facts;
mod fresh;
mod shown;

pub use difference::{Difference, first_difference};
pub use fresh::make_fresh;
pub use shown::show;
