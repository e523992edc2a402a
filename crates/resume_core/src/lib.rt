//! Resuming: finds the mark in the header block and takes it back, reads the image into page frames that are free to
//! the loader, and brings the pages home (software_resume, kernel/power/hibernate.c; swsusp_check and swsusp_read,
//! kernel/power/swap.c).
#![tactic(auto)]

mod back;
mod begin;
mod end;
mod find;
mod list;
mod load;
mod phase;
mod read;

pub use load::Load;
pub use phase::Phase;
