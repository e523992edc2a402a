//! The command line of `swsusp_image`: what a list of words asks for, and the message for one that asks for nothing.

mod command;
mod command_line;
mod details;
mod matched;
mod spelled;

pub use crate::answer::Unparsed;
pub use command::{Area, Command, Form};
