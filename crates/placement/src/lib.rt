//! Where loaded pages wait, and how they get to their own page frames: the plan of the places, the restore list that
//! lies in page frames itself, the moves in an order in which none writes over a page that still waits, and the pages
//! that wait, as one value (get_safe_page, prepare_image, get_buffer and struct pbe, kernel/power/snapshot.c).
#![tactic(auto)]

mod list;
mod planning;
mod relocation;
mod waiting;

pub use planning::TooFew;
pub use waiting::Waiting;
