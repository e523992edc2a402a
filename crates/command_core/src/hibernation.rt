ghost use Rattle.std.specs.Prelude.{◌≡◌, ◌⊎◌, ◌≤◌, IsTrue, Some, IfErr};
ghost use Rattle.definitions.specs.Disk.{HasRisen};
ghost use Rattle.world_core.specs.StandsFor.{IsNewWorld, IsOff, blocks_of, hardware_of, shown};
ghost use Rattle.command_core.specs.Runs.{IsHibernation, RanAs, is_booted};
ghost use Rattle.command_core.specs.Parts.{Boots, Starts};

use crate::ending::{Ended, finish, goes_on};
use page_core::Format;
use plain_machine::{Actor, BootFrom, Event, Reply};
use sector_disk::Disk;
use world_core::World;

/// Boots a new machine with the memory of its dump, drops cached page frames until `size` saveable ones are left, if a
/// size is asked for, and lets it hibernate (hibernate, kernel/power/hibernate.c). Returns the last reply.
pub fn hibernate<D: Disk>(
    world: &mut World,
    disk: &mut D,
    format: Format,
    size: Option<u64>,
) -> Ended
    requires new { IsNewWorld (hardware_of world.old) (Some world.old.frames) world.old }
    ensures ran { RanAs (IsHibernation format size result) D.Disk (hardware_of world.old) world.old.frames
        (shown world.new) disk.old disk.new }
    ensures hardware { hardware_of world.new ≡ hardware_of world.old }
    ensures cause { IsTrue result.failed → HasRisen (D.faults disk.old) (D.faults disk.new) }
    ensures faults { D.faults disk.old ≤ D.faults disk.new }
    ensures orders { D.orders disk.new ≡ D.orders disk.old }
{
    match start(world, disk, size) {
        Ok(()) => {}
        Err(ended) => return ended,
    }
    let begun = world.event(disk, Event::Hibernate(format));
    finish(world, disk, begun)
}

/// Boots the machine, and drops cached page frames if a size is asked for. Fails with the reply to a failed call of the
/// disk.
fn start<D: Disk>(world: &mut World, disk: &mut D, size: Option<u64>) -> Result<(), Ended>
    requires new { IsNewWorld (hardware_of world.old) (Some world.old.frames) world.old }
    ensures ran { Starts D.Disk size world.old world.new result disk.old disk.new }
    ensures hardware { hardware_of world.new ≡ hardware_of world.old }
    ensures cause { IfErr result (λ ended. IsTrue ended.failed → HasRisen (D.faults disk.old) (D.faults disk.new)) }
    ensures faults { D.faults disk.old ≤ D.faults disk.new }
    ensures orders { D.orders disk.new ≡ D.orders disk.old }
    ensures blocks { IsOff world.new ⊎ (D.block_count disk.new ≡ blocks_of world.new) }
{
    match boot(world, disk) {
        Ok(()) => {}
        Err(ended) => return Err(ended),
    }
    if let Some(want) = size {
        world.event(disk, Event::Shrink(want));
    }
    Ok(())
}

/// Boots the machine. Fails with the reply to a failed call of the disk.
fn boot<D: Disk>(world: &mut World, disk: &mut D) -> Result<(), Ended>
    requires new { IsNewWorld (hardware_of world.old) (Some world.old.frames) world.old }
    ensures ran { Boots D.Disk world.old world.new result disk.old disk.new }
    ensures hardware { hardware_of world.new ≡ hardware_of world.old }
    ensures cause { IfErr result (λ ended. IsTrue ended.failed → HasRisen (D.faults disk.old) (D.faults disk.new)) }
    ensures faults { D.faults disk.old ≤ D.faults disk.new }
    ensures orders { D.orders disk.new ≡ D.orders disk.old }
    ensures blocks { IsOff world.new ⊎ (D.block_count disk.new ≡ blocks_of world.new) }
{
    world.event(disk, Event::Boot(BootFrom::Kept));
    let synced = world.event(disk, Event::Step(Actor::Core));
    if !goes_on(&synced) {
        return Err(Ended::after(synced));
    }
    let read = world.event(disk, Event::Step(Actor::Core));
    if !is_booted(&read) {
        return Err(Ended::after(read));
    }
    Ok(())
}

fn is_booted(reply: &Reply) -> bool
    ensures { result ≡ is_booted reply.now }
{
    matches!(reply, Reply::Booted { .. })
}
