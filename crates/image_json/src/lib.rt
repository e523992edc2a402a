//! What is written in a swap area, and what is wrong with its image, each as one JSON object on a line.
#![tactic(auto)]

mod array;
mod checking;
mod findings;
mod found_texts;
mod members;
mod pieces;
mod showing;
mod values;

pub use checking::{Checked, check, sum_up};
pub use findings::Findings;
pub use showing::show;
