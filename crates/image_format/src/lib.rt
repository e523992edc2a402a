//! The blocks of a swap area with an image: the header block with its signature and mark, the image's first page, which
//! says whose it is, and the pages of the swap map (struct swsusp_header and struct swap_map_page, kernel/power/swap.c;
//! struct swsusp_info, kernel/power/power.h).
#![tactic(auto)]

pub mod info;
mod map;
mod signature;

pub use map::{ChainFault, MapReader, MapWriter, Pushed};
pub use signature::{
    Area, AreaFault, AreaKind, MOST_BADPAGES, Mark, SF_HW_SIG, SF_NOCOMPRESS_MODE, SF_SKIPS_ZEROS,
    area_page, is_marked, mark, take_back, unmark,
};
