//! Disks of blocks: the trait, a disk in memory, and the effect of a recorded call.
#![tactic(auto)]

mod calls;
mod disk;
mod mem_disk;
mod orders;
mod recorded;
mod sectors;

pub use disk::Disk;
pub use mem_disk::MemDisk;
pub use orders::{Order, Orders};
pub use recorded::Recorded;
pub use sectors::{SECTORS_IN_BLOCK, Sector};
