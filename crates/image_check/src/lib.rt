//! What is wrong with an image in a swap area: each finding, with its place, in the order in which the image is read.
#![tactic(auto)]

mod checking;
mod entries;
mod finding;
mod header;
mod info;
mod numbers;
mod progress;
mod report;
mod text;

pub use checking::{Outcome, check, format_of, mark_in};
pub use entries::check_name;
pub use finding::{Counts, Finding, Place};
pub use header::{any_block, check_header, is_compressed, limits_of};
pub use info::{check_info, counts_in};
pub use progress::Progress;
pub use report::{Printer, Report};
