//! A check of an image as a value that asks: it names the block to be read next and is told how that went, so a boot
//! loader can embed it. It finds what `check` of `image_check` finds over a disk.
#![tactic(auto)]

mod check;
mod names;
mod stage;

pub use check::Check;
pub use names::Names;
pub use stage::{FewWords, Stage, Step};
use std::mem::size_of;

const _: () = prove!(size_of::<Check>() <= 16384);
