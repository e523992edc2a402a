ghost use Rattle.std.specs.Prelude.{◌≡◌, ◌≤◌, ◌+◌, IsTrue, Some};
ghost use Rattle.definitions.specs.Disk.{HasRisen};
ghost use Rattle.world_core.specs.StandsFor.{IsNewWorld, hardware_of, shown};
ghost use Rattle.command_core.specs.Runs.{IsResumption, RanAs};

use crate::ending::{Ended, finish};
use plain_machine::{Event, IdentCheck, Loader};
use sector_disk::Disk;
use world_core::World;

/// Resumes the image on a disk into a new machine, with the dump's memory as the loader's (software_resume,
/// kernel/power/hibernate.c). Returns the last reply; if that is `Resumed`, the page frames are those of the machine
/// that was saved.
pub fn resume<D: Disk>(world: &mut World, disk: &mut D, check: IdentCheck) -> Ended
    requires new { IsNewWorld (hardware_of world.old) (Some world.old.frames) world.old }
    ensures ran { RanAs (IsResumption check result) D.Disk (hardware_of world.old) world.old.frames
        (shown world.new) disk.old disk.new }
    ensures hardware { hardware_of world.new ≡ hardware_of world.old }
    ensures cause { IsTrue result.failed → HasRisen (D.faults disk.old) (D.faults disk.new) }
    ensures faults { D.faults disk.old ≤ D.faults disk.new }
    ensures orders { D.orders disk.new ≡ D.orders disk.old }
    ensures calls { D.calls disk.new ≤ D.calls disk.old + 65800 }
{
    let begun = world.event(disk, Event::Resume(Loader::Table, check));
    finish(world, disk, begun)
}
