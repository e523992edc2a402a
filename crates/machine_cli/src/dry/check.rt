ghost use Rattle.std.specs.Prelude.{◌≡◌, ◌≤◌, ◌+◌, IsTrue, Some, IfOk};
ghost use Rattle.definitions.specs.Disk.{Content, HasRisen, as_it_reads};
ghost use Rattle.plain_machine.specs.Chain.{Marked};
ghost use Rattle.plain_machine.specs.UsableArea.{HasOriginal};
ghost use Rattle.world_core.specs.StandsFor.{IsNewWorld, hardware_of};
ghost use Rattle.overlay_disk.specs.DiskState.{IsSame};
ghost use Rattle.machine_cli.specs.Foretold.{Foretells};

use command_core::{Ended, resume};
use overlay_disk::{Lent, Original, Overlay, ReadOnly};
use page_core::NoMemory;
use plain_machine::IdentCheck;
use sector_disk::Disk;
use std::marker::Brand;
use world_core::World;

/// Returns the last answer that a resume of the image on a disk into a new machine, whose memory is that of the
/// loader's dump, would give. The disk is only read: what the resume writes stays in memory, and an error says that
/// there was none for a page of it.
pub fn would_resume<D: Disk>(
    world: &mut World,
    disk: &mut D,
    check: IdentCheck,
) -> Result<Ended, NoMemory>
    requires new { IsNewWorld (hardware_of world.old) (Some world.old.frames) world.old }
    ensures resumed { (c : Content) → D.content disk.old ≡ Some c →
        (Marked (hardware_of world.old) (as_it_reads c) → HasOriginal (hardware_of world.old) (as_it_reads c)) →
        IfOk result (Foretells (hardware_of world.old) world.old.frames check (as_it_reads c) world.new.frames) }
    ensures hardware { hardware_of world.new ≡ hardware_of world.old }

    // A failure means that a call of the disk has failed.
    ensures cause { IfOk result (λ ended. IsTrue ended.failed → HasRisen (D.faults disk.old) (D.faults disk.new)) }
    ensures faults { D.faults disk.old ≤ D.faults disk.new }

    ensures untouched { D.content disk.new ≡ D.content disk.old }
    ensures calls { D.calls disk.new ≤ D.calls disk.old + 65800 }
    ensures orders { D.orders disk.new ≡ D.orders disk.old }
    ensures blocks { D.block_count disk.new ≡ D.block_count disk.old }
{
    let below = Lent { disk };
    let over = resume_over::<Lent<'_, D>, Brand>(world, below, check);
    over.1
}

/// Resumes over a disk that is only read, and gives it back.
fn resume_over<B: ReadOnly + Drop, K: Original>(
    world: &mut World,
    below: B,
    check: IdentCheck,
) -> (B, Result<Ended, NoMemory>)
    requires new { IsNewWorld (hardware_of world.old) (Some world.old.frames) world.old }
    requires original { B.state below ≡ K.state }
    ensures resumed { (c : Content) → K.state.content ≡ Some c →
        (Marked (hardware_of world.old) (as_it_reads c) → HasOriginal (hardware_of world.old) (as_it_reads c)) →
        IfOk result.1 (Foretells (hardware_of world.old) world.old.frames check (as_it_reads c) world.new.frames) }
    ensures hardware { hardware_of world.new ≡ hardware_of world.old }
    ensures cause { IfOk result.1 (λ ended. IsTrue ended.failed → HasRisen K.state.faults (B.state result.0).faults) }
    ensures faults { K.state.faults ≤ (B.state result.0).faults }
    ensures same { IsSame K.state (B.state result.0) }
    ensures calls { (B.state result.0).calls ≤ K.state.calls + 65800 }
{
    let mut overlay = Overlay::<B, K>::over(below);
    let ended = resume(world, &mut overlay, check);
    let (below, room) = overlay.into_below();
    match room {
        Ok(()) => (below, Ok(ended)),
        Err(NoMemory) => (below, Err(NoMemory)),
    }
}
