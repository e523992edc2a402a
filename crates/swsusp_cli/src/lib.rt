//! The commands of `swsusp`, and the top call.
#![tactic(auto)]

mod beginning;
mod choosing;
mod drilling;
mod dump_input;
mod exporting;
mod formatting;
mod hibernating;
mod importing;
mod inspection;
mod playing;
mod reading;
mod replay;
mod resuming;
mod setting_up;
mod stop;
mod top;

pub use beginning::begin;
pub use choosing::{Choice, swap_name};
pub use drilling::play_through;
pub use dump_input::{dump_of_input, machine_of, stopped, succeeded};
pub use playing::play;
pub use replay::cut_off;
pub use resuming::tell_dump;
pub use stop::Stop;
pub use top::run;
