//! What is written in a swap area whose image may be compressed, fact by fact. Of a compressed one, the facts are those
//! of the plain image that it expands to, with the blocks of the area in place of that image's.
#![tactic(auto)]

mod area_facts;
mod block_facts;
mod gathered;
mod image_form;
mod showing;
mod topic;

pub use showing::show;
