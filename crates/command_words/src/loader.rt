//! The command lines of `swsusp_image loader` and `swsusp_image machine`, whose options may be repeated.

mod asked;
mod numbers;
mod options;

pub use asked::{Asked, Wanted, parse};
