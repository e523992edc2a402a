//! Where two hibernation images differ: in their marks, in what their info pages say, and in their saved page frames.
#![tactic(auto)]

mod begun;
mod comparison;
mod difference;
mod heading;
mod reading;
mod side;
mod text;

pub use comparison::{Comparison, Next, Opened};
pub use difference::{Difference, Part};
pub use heading::Heading;
pub use side::{Side, Which};
pub use text::line_of;
