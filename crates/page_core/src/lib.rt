//! Pages, their words, and the types that every crate shares.
#![tactic(auto)]

mod failures;
mod format;
mod page;

pub use failures::{Failed, NoMemory};
pub use format::Format;
pub use page::Page;
