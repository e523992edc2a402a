//! The pages of an image in a swap area: those of its stream, one after another, up to the first name that has findings;
//! the saved page of one page frame; and all saved page frames, in the order of the image or of their numbers.
#![tactic(auto)]

mod accepting;
pub mod frames;
mod opened;
mod pages;
mod saved;
mod tally;

pub use accepting::{accept_header, accept_info};
pub use opened::{Opened, Reader};
pub use pages::{Next, Pages};
pub use saved::{Found, frame_of, has_page, page_of, read_ahead, read_page};
