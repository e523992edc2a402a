//! What a dump says of its machine, as a list of facts: the hardware, the owners of the page frames and the slots, and
//! what a hibernation would take.

mod counting;
mod fact;
mod layout;
mod memory;

ghost use Rattle.std.specs.Prelude.{◌≡◌, length};
ghost use Rattle.definitions.specs.Zones.{top};
ghost use Rattle.dump_tools.specs.Facts.{facts_of};

pub use fact::Fact;
use layout::{add_identity, add_layout};
use machine::Dump;
use memory::{add_frames, add_images, add_slots};

/// The facts of a dump: at most 16 zones, 64 regions, 64 extents, 64 tasks with page frames and 64 with slots, and 20
/// more.
pub type Facts = byte_streams::Facts<Fact, 292>;

/// Returns the facts of a dump.
#[tactic(auto, unfolding(crate::specs::Facts::facts_of))]
pub fn facts_of(dump: &Dump) -> Facts
    requires { length dump.now.frames ≡ top dump.now.hw.zones }
    ensures { result ≡ facts_of dump.now.hw dump.now.frames }
{
    let mut facts = Facts::new();
    add_layout(&mut facts, &dump.hw);
    add_identity(&mut facts, &dump.hw);
    add_frames(&mut facts, dump);
    add_slots(&mut facts, dump);
    add_images(&mut facts, dump);
    facts
}
