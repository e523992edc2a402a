//! A resume as a value that asks: it names the next call of the disk, or the page frame that a page belongs to, and is
//! told how that went. It makes no call itself and allocates no memory, so a boot loader can embed it
//! (kernel/power/swap.c, swsusp_check and swsusp_read). `discard` gives an image up in the same way.
#![tactic(auto)]

mod call;
mod cause;
pub mod discard;
mod header;
mod info;
mod machine;
mod numbers;
mod pages;
mod ranges;
mod reading;
mod resume;
mod stage;

pub use call::{Call, FailedCall, Left};
pub use cause::Cause;
pub use machine::{FrameRange, Identity, Machine, MachineFault};
pub use reading::Reading;
pub use resume::Resume;
pub use stage::{Move, Stage};
