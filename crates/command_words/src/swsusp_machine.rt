//! The command line of `swsusp_machine`: what a list of words asks for, and the message for one that asks for nothing.

mod command;
mod command_line;
mod details;
mod matched;
mod spelled;

pub use crate::answer::Unparsed;
pub use command::Command;
