//! The pages of frame numbers that follow the info page of an image (kernel/power/snapshot.c, pack_pfns and
//! unpack_orig_pfns): 512 ascending numbers each. 2^64-1 follows the last number unless that fills its page.

mod packing;
mod unpack;

pub use packing::pack;
pub use unpack::{PfnFault, Unpack};
