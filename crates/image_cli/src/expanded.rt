//! The commands of `swsusp_image` over a disk whose image may be compressed: the whole image is read once, and then the
//! command runs over the disk that expands it.

mod checking;
mod commands;
mod differing;
mod expanding;
mod owned;
mod streaming;

pub use checking::{check, check_json};
pub use differing::differ;
pub use streaming::{core, page, stream};
