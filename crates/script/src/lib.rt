//! Scripts, and the lines that the program prints.
#![tactic(auto)]

mod drill;
mod fault;
mod first_words;
mod grammar;
mod ident;
mod lines;
mod phrases;
mod ranges;
mod reading;
mod replies;
mod settings;
mod tally;
mod texts;
mod words;

pub use drill::generate;
pub use fault::{FaultKind, ParseStop, ScriptFault};
pub use reading::{Script, parse};
pub use replies::line_of;
pub use tally::{Tally, put_summary};
pub use texts::put_no_swap;
pub use words::number_of;
