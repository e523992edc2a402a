//! The saved pages of an image, one by one, as its chain names them.

mod finding;
mod words;

pub use finding::{Found, page_of, read_ahead, read_page};
pub use words::{frame_of, has_page};
