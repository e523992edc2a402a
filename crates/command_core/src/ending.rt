ghost use Rattle.std.specs.Prelude.{◌≡◌, ◌⊎◌, ◌≤◌, ◌↔◌, ◌+◌, IsTrue, if◌then◌else◌};
ghost use Rattle.definitions.specs.Disk.{HasRisen};
ghost use Rattle.protocol_laws.specs.Rows.{TellsNewFault};
ghost use Rattle.world_core.specs.StandsFor.{IsOff, blocks_of, hardware_of};
ghost use Rattle.world_core.specs.StepsLeft.{steps_left};
ghost use Rattle.command_core.specs.Runs.{goes_on};
ghost use Rattle.command_core.specs.Parts.{Finishes};

use plain_machine::{Actor, Event, Left, Reply};
use sector_disk::Disk;
use world_core::World;

/// How an operation has ended.
#[derive(Clone, Copy)]
pub struct Ended {
    /// The last reply.
    pub reply: Reply,
    /// Whether a call of the disk has failed.
    pub failed: bool,
}

impl Ended {
    /// Returns the ending of an operation by the reply of the only event that could fail.
    pub(crate) fn after(reply: Reply) -> Ended
        ensures reply { result.reply ≡ reply }
        ensures failed { IsTrue result.failed ↔ TellsNewFault reply }
    {
        Ended {
            reply,
            failed: is_new_fault(&reply),
        }
    }
}

/// Makes the steps of the operation that this reply began, until a reply after which none is left. Each step leaves
/// fewer steps, so such a reply comes over any disk.
pub(crate) fn finish<D: Disk>(world: &mut World, disk: &mut D, begun: Reply) -> Ended
    requires blocks { IsOff world.old ⊎ (D.block_count disk.old ≡ blocks_of world.old) }
    ensures ran { Finishes D.Disk world.old world.new begun result disk.old disk.new }
    ensures hardware { hardware_of world.new ≡ hardware_of world.old }
    ensures cause { IsTrue result.failed → HasRisen (D.faults disk.old) (D.faults disk.new) }
    ensures faults { D.faults disk.old ≤ D.faults disk.new }
    ensures orders { D.orders disk.new ≡ D.orders disk.old }
    ensures calls { D.calls disk.new ≤ D.calls disk.old + (if goes_on begun then steps_left world.old else 0) }
{
    let mut reply = begun;
    let mut failed = false;
    while goes_on(&reply) {
        reply = world.event(disk, Event::Step(Actor::Core));
        failed = failed || is_new_fault(&reply);
    }
    Ended { reply, failed }
}

/// Returns whether an operation has a step left after this reply.
pub(crate) fn goes_on(reply: &Reply) -> bool
    ensures { result ≡ goes_on reply.now }
{
    matches!(
        reply,
        Reply::More { .. } | Reply::Undo { .. } | Reply::Loading { .. }
    )
}

/// Returns whether a reply says that the call of the disk at its event has failed.
pub(crate) fn is_new_fault(reply: &Reply) -> bool
    ensures { IsTrue result ↔ TellsNewFault reply.now }
{
    match *reply {
        Reply::ReadFault { .. } => true,
        Reply::WriteFault { left } | Reply::SyncFault { left } => left != Left::Gone,
        Reply::Undo { k, .. } => k == 0,
        _ => false,
    }
}
