//! What is written in a swap area, fact by fact, in lines or in another form: its header block and, if it has an image,
//! whose image that is, and which blocks and page frames it takes.
#![tactic(auto)]

mod area;
mod blocks;
mod facts;
mod fault;
mod form;
mod frames;
mod image;
mod lines;
mod printing;
mod shown;
mod text;

pub use area::show;
pub use facts::{Fact, Facts, Flag, Header, Part, Reading, Runs, header_facts, info_facts};
pub use fault::Fault;
pub use form::Form;
pub use shown::Shown;
pub use text::text_of;
