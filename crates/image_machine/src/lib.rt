//! The machine of a hibernation image: one into which the image can be resumed, and the one that it saved; and the dumps
//! of both.
#![tactic(auto)]

mod dump;
mod filled;
mod heading;
mod in_use;
mod limit;
mod plan;
mod rows;

pub use dump::{Asked, Headed, Made, heading_in, loader_from, loader_of, machine_from, machine_of};
pub use filled::FilledPlan;
pub use heading::{Heading, Layout};
pub use limit::{Limit, Stop};
pub use plan::Plan;
