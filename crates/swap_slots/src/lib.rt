//! The slots of a swap area: their table in page frames, the runs of free ones, and the blocks that they lie on.
#![tactic(auto)]

mod entry;
mod file_map;
mod runs;
mod table;
mod words;

pub use entry::SlotEntry;
pub use file_map::FileMap;
pub use runs::FreeRuns;
pub use table::SlotTable;
