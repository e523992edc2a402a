//! The pages of the swap map (`struct swap_map_page`, kernel/power/swap.c): 511 entries, each the block of a page of
//! the image, and the block of the next map page.

use definitions::MAP_PAGE_ENTRIES;

mod reader;
mod writer;

pub use reader::{ChainFault, MapReader};
pub use writer::{MapWriter, Pushed};

/// The entries of a map page (MAP_PAGE_ENTRIES). The link is the word after them.
const ENTRIES: usize = MAP_PAGE_ENTRIES as usize;
