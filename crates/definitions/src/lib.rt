//! Definitions that the contracts of several crates cite, the plain types that they use, and laws that show what they
//! mean.
#![tactic(auto)]

mod counts;
mod info;

pub use counts::{
    BLOCKS_PER_MAP, ENTRIES_PER_FRAME, MAP_PAGE_ENTRIES, PAGES_FOR_IO, SECTOR_SIZE, SPARE_FRAMES,
    SPARE_SLOTS, WORDS_PER_PAGE, number_page_count,
};
pub use info::{Field, Ident, Info};
