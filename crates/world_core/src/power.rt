ghost use Rattle.std.specs.Prelude.{◌≡◌, ℕ, ◌≤◌, [], ◌∷◌, ◌++◌, IsTrue};
ghost use Rattle.definitions.specs.Disk.{Changes, Elapses, Restarts};

use crate::World;
use crate::world::Core;
use plain_machine::Reply;
use sector_disk::Disk;

// A power cut, and faults of the disk (own).
impl World {
    ghost use Rattle.plain_machine.specs.declared.event.Event.TheVariants as event;
    ghost use Rattle.protocol_laws.specs.Rows.{TellsNewFault};
    ghost use Rattle.sector_disk.specs.declared.orders.Order.TheVariants as order;
    ghost use Rattle.world_core.specs.StandsFor.{hardware_of, blocks_of, IsOff, keeps_dump};
    ghost use Rattle.world_core.specs.Row.{SimulatesWhereTold};

    /// Cuts the power: the disk is left with one of its images, and memory is lost, except a dump's that is kept.
    /// Never refused.
    pub(crate) fn cut<D: Disk>(&mut self, disk: &mut D, pick: u64) -> Reply
        ensures row { SimulatesWhereTold (event.Cut pick) self.old self.new result (D.content disk.old)
            (D.content disk.new) }
        ensures cause { TellsNewFault result → ⊥ }
        ensures faults { D.faults disk.old ≤ D.faults disk.new }
        ensures calls { D.calls disk.new ≡ D.calls disk.old }
        ensures orders { D.orders disk.new ≡ D.orders disk.old ++ order.Restart pick ∷ [] }
        ensures telling { D.tells_moments disk.new ≡ D.tells_moments disk.old }
        ensures hardware { hardware_of self.new ≡ hardware_of self.old }
        ensures blocks { blocks_of self.new ≡ blocks_of self.old }
        ensures off { IsOff self.new }
        ensures cut { Changes Restarts (D.content disk.old) (D.content disk.new) }
    {
        disk.restart(pick);
        self.core = Core::Off {
            keeps_dump: self.keeps_dump(),
        };
        Reply::WasCut
    }

    /// Arms the disk, so that calls of it fail. Nothing else changes. Never refused.
    pub(crate) fn arm<D: Disk>(&self, disk: &mut D, first: u32, count: u32, pick: u64) -> Reply
        ensures row { SimulatesWhereTold (event.Arm first count pick) self.now self.now result (D.content disk.old)
            (D.content disk.new) }
        ensures cause { TellsNewFault result → ⊥ }
        ensures faults { D.faults disk.old ≤ D.faults disk.new }
        ensures calls { D.calls disk.new ≡ D.calls disk.old }
        ensures orders { D.orders disk.new ≡ D.orders disk.old ++ order.Arm first count pick ∷ [] }
        ensures blocks { D.block_count disk.new ≡ D.block_count disk.old }
        ensures telling { D.tells_moments disk.new ≡ D.tells_moments disk.old }
        ensures time { IsTrue (D.tells_moments disk.old) → Changes (Elapses (D.moment disk.old) (D.moment disk.new)
            (D.left_since disk.old) (D.left_since disk.new)) (D.content disk.old) (D.content disk.new) }
    {
        disk.arm(first, count, pick);
        Reply::Done
    }

    /// Returns whether memory is still a dump's.
    pub(crate) fn keeps_dump(&self) -> bool
        ensures { result ≡ keeps_dump self.now.core }
    {
        match self.core {
            Core::Off { keeps_dump } => keeps_dump,
            _ => false,
        }
    }
}
