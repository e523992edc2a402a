//! The plain machine: what a simulated machine may do and answer, without saying how.
#![tactic(auto)]

mod counts;
mod event;
mod fitting;
mod held;
mod no_swap;
mod reply;

pub use counts::{image_pages, image_reads, image_writes};
pub use event::{Actor, BootFrom, Event, IdentCheck, Loader, Ranges, TaskOp};
pub use held::Held;
pub use no_swap::NoSwap;
pub use reply::{Left, Reply, UndoCall};
