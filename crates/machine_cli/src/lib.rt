//! The commands of `swsusp_machine`: they make machines, as memory dumps, to try `swsusp` on.
#![tactic(auto)]

mod checking;
mod coring;
mod differing;
mod drawing;
mod dry;
mod loading;
mod making;
mod showing;

pub use checking::check;
pub use coring::core;
pub use differing::differ;
pub use drawing::draw;
pub use loading::loader;
pub use making::make;
pub use showing::show_facts;
