//! What an area and its image say, as facts: the header block, the info page, and the blocks and page frames in runs.

mod fact;
mod header;
mod info;
mod part;
mod reading;
mod runs;

pub use fact::{Fact, Flag, Header};
pub use header::header_facts;
pub use info::info_facts;
pub use part::Part;
pub use reading::Reading;
pub use runs::Runs;

/// The facts of a block: at most 630 bad pages, and 16 more of a header block.
pub type Facts = byte_streams::Facts<Fact, 646>;
