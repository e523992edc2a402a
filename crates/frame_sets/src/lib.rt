//! Page frames as numbers: the zones that say which are valid, and sets of them as blocks of bits (struct zone,
//! include/linux/mmzone.h; struct memory_bitmap, kernel/power/snapshot.c). `packing` has the pages of their numbers.
#![tactic(auto)]

mod bitmap;
pub mod packing;
mod zones;

pub use bitmap::{Bitmap, Iter};
pub use zones::{ZoneFault, Zones};
