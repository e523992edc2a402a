//! Draws the run of a script as a picture, an SVG: what memory, disk and power show at each event.
#![tactic(auto)]

mod calls;
mod column;
mod frame;
mod lanes;
mod piece;
mod shapes;
mod telling;
mod words;

pub use column::put_column;
pub use frame::{put_foot, put_head};
pub use lanes::{Activity, ImageShown, Lanes};
