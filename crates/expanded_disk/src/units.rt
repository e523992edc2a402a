//! The units of a compressed image, read one after another over any disk (save_image_lzo, load_image_lzo,
//! kernel/power/swap.c).

mod chain;
mod index;
mod reading;
mod source;
mod unit;
mod units;
mod walks;

pub use index::Index;
pub use reading::{Opened, SF_CRC32_MODE, open};
pub use source::Source;
pub use unit::Unit;
pub use units::{is_length, pages_with, size_of, units_of};
pub use walks::Walks;
