//! Whether the kernel uses a file or a block device. The library can't open a device exclusively, so the kernel is
//! asked: /proc lists its mounts and swap areas, and /sys shows which device holds another (device mapper, RAID).
#![tactic(auto)]

mod device;
mod in_use;
mod proc_lines;

pub use device::Device;
pub use in_use::is_in_use;
pub use proc_lines::{SwapArea, mounted, swap_area, unescaped};
