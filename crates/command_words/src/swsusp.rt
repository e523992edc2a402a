//! The command line of `swsusp`: what a list of words asks for, and the message for one that asks for nothing.

mod command;
mod command_line;
mod details;
mod matched;
mod spelled;
mod unparsed;

pub use command::Command;
pub use unparsed::Unparsed;
