//! The commands of `swsusp_image` and `swsusp_machine` that make dumps: of the machine of an image, and of that of a
//! core file.
#![tactic(auto)]

mod cores;
mod dumping;
mod limits;
mod loading;
mod making;
mod telling;
mod wanted;

pub use cores::from_core;
pub use loading::{loader, machine};
pub use wanted::Wanted;
