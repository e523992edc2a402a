//! The command lines of the programs: for each one, what a list of words asks for, and the message for one that asks for
//! nothing. At the root is what they share.
#![tactic(auto)]

mod answer;
mod building;
mod checks;
pub mod loader;
pub mod swsusp;
pub mod swsusp_image;
pub mod swsusp_machine;
mod words;
