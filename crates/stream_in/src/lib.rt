//! Imports an image: takes it as a stream of bytes, which it checks, writes it into a swap area and marks it there, as a
//! hibernation leaves it (snapshot_write_next and load_header, kernel/power/snapshot.c; save_image and mark_swapfiles,
//! kernel/power/swap.c).
#![tactic(auto)]

mod area;
mod checking;
mod header;
mod putting;
mod session;
mod slots;
mod stop;

pub use checking::{Checker, Kind, StreamFault};
pub use session::StreamIn;
pub use stop::InStop;
