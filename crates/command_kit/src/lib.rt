//! What a command ends with: a status, and what it prints on the outputs.
#![tactic(auto)]

mod answer;
mod status;

pub use answer::{Answer, no_memory, print, tell};
pub use status::Status;
