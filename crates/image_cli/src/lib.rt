//! The commands of `swsusp_image`: what they print of the image of a swap area, and what they leave of it. Those of the
//! root take an image as it lies on the disk; `expanded` has those that take a compressed one too.
#![tactic(auto)]

mod checking;
mod coring;
mod differing;
mod discarding;
pub mod expanded;
mod showing;
mod streaming;
mod unmarking;

pub use checking::{check, check_json};
pub use coring::core;
pub use differing::differ;
pub use discarding::discard;
pub use showing::{show, show_json};
pub use streaming::{page, stream};
