//! The header block of a swap area: what it says, and the mark of an image over it.

mod area;
mod layout;
mod marking;
mod signatures;

pub use area::{Area, AreaFault, AreaKind, Mark, area_page};
pub use layout::{MOST_BADPAGES, SF_HW_SIG, SF_NOCOMPRESS_MODE, SF_SKIPS_ZEROS};
pub use marking::{is_marked, mark, take_back, unmark};
