//! Compressed images (save_image_lzo and load_image_lzo, kernel/power/swap.c): their units, one after another, over any
//! disk, and a disk that expands them: its blocks read as the plain image of the same machine.
#![tactic(auto)]

mod disk;
mod kept;
mod laying;
mod loading;
mod refused;
mod units;

pub use disk::ExpandedDisk;
pub use units::{Index, Opened, Source, Walks, open, units_of};
