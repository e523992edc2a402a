ghost use Rattle.std.specs.Prelude.{◌≡◌, ◌-◌, All, length};
ghost use Rattle.definitions.specs.Bytes.{IsPage};
ghost use Rattle.definitions.specs.Zones.{top};
ghost use Rattle.plain_machine.specs.Machine.{IsHardware, saveable};
ghost use Rattle.plain_machine.specs.Step.{drop_memory, dropped_by};
ghost use Rattle.protocol_laws.specs.Rows.{TellsNewFault};

use crate::World;
use crate::world::Core;
use definitions::ENTRIES_PER_FRAME;
use frame_arena::Frames;
use frame_table::shrink;
use machine::Hardware;
use plain_machine::Reply;

// Dropping cached page frames, so that an image becomes as small as is wanted (own policy; in Linux
// hibernate_preallocate_memory, kernel/power/snapshot.c).
impl World {
    ghost use Rattle.definitions.specs.Disk.{Content};
    ghost use Rattle.plain_machine.specs.declared.event.Event.TheVariants as event;
    ghost use Rattle.world_core.specs.declared.world.Core.TheVariants as core;
    ghost use Rattle.world_core.specs.StandsFor.{hardware_of, blocks_of};
    ghost use Rattle.world_core.specs.Row.{Simulates, IsRefused, ChangesNothing, LeavesMemory};

    /// Drops cached page frames until `want` saveable ones are left, if the machine runs.
    pub(crate) fn shrink(&mut self, want: u64) -> Reply
        ensures row { (c : Content) → Simulates (event.Shrink want) self.old self.new result c c }
        ensures cause { TellsNewFault result → ⊥ }
        ensures hardware { hardware_of self.new ≡ hardware_of self.old }
        ensures blocks { blocks_of self.new ≡ blocks_of self.old }
        ensures core { self.new.core ≡ self.old.core }
        ensures refused { IsRefused (event.Shrink want) self.old result → ChangesNothing self.old self.new }
        ensures memory { LeavesMemory (event.Shrink want) self.old result self.new }
    {
        match self.core {
            Core::Off { .. } => Reply::NotOn,
            Core::Asleep => Reply::Sleeping,
            Core::BootBegun(_)
            | Core::BootSynced(_)
            | Core::Hibernating
            | Core::Waking
            | Core::Loading => Reply::Frozen,
            Core::Running => self.drop_cached(want),
        }
    }

    /// Drops the cached page frames, if no task has an unfinished operation.
    fn drop_cached(&mut self, want: u64) -> Reply
        requires running { self.old.core ≡ core.Running }
        ensures row { (c : Content) → Simulates (event.Shrink want) self.old self.new result c c }
        ensures cause { TellsNewFault result → ⊥ }
        ensures hardware { hardware_of self.new ≡ hardware_of self.old }
        ensures blocks { blocks_of self.new ≡ blocks_of self.old }
        ensures core { self.new.core ≡ self.old.core }
        ensures refused { IsRefused (event.Shrink want) self.old result → ChangesNothing self.old self.new }
        ensures memory { LeavesMemory (event.Shrink want) self.old result self.new }
    {
        if let Some(task) = self.machine.busy() {
            return Reply::Busy { task };
        }
        let (dropped, left) = drop_of(&mut self.frames, &self.machine.hw, want);
        Reply::Shrunk { dropped, left }
    }
}

/// Drops cached page frames of a machine, except those of its tables. Returns how many, and how many saveable are left.
fn drop_of(frames: &mut Frames, hw: &Hardware, want: u64) -> (u32, u32)
    requires size { length frames.old ≡ top hw.now.zones }
    ensures hardware { IsHardware hw.now }
    ensures frames { frames.new ≡ drop_memory hw.now frames.old want }
    ensures dropped { result.0 ≡ length (dropped_by hw.now frames.old want) }
    ensures left { result.1 ≡ length (saveable hw.now frames.new) }
    ensures rest { result.1 ≡ length (saveable hw.now frames.old) - length (dropped_by hw.now frames.old want) }
    ensures pages { All IsPage frames.old }
    ensures len { length frames.new ≡ length frames.old }
{
    frames.are_pages();
    let zones = hw.zones();
    let tables = [
        (hw.frame_table(), zones.top().div_ceil(ENTRIES_PER_FRAME)),
        (hw.slot_table(), hw.slots().div_ceil(ENTRIES_PER_FRAME)),
    ];
    shrink(frames, zones, hw.frame_table(), &tables, want)
}
