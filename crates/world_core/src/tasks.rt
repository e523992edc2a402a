ghost use Rattle.std.specs.Prelude.{◌≡◌, ◌≢◌, ◌⊎◌, ◌↔◌, IsSome, IsTrue};
ghost use Rattle.plain_machine.specs.declared.reply.Reply.TheVariants as reply;
ghost use Rattle.protocol_laws.specs.Rows.{TellsNewFault};
ghost use Rattle.sector_disk.specs.Called.{Called};

use crate::World;
use crate::world::Core;
use plain_machine::{Reply, TaskOp};
use sector_disk::Disk;

// What tasks do while the machine runs (own; in Linux the page allocator, and swap_writepage and swap_readpage,
// mm/page_io.c).
impl World {
    ghost use Rattle.plain_machine.specs.Fitting.{IsFittingOp};
    ghost use Rattle.plain_machine.specs.Machine.{IsTask};
    ghost use Rattle.definitions.specs.Disk.{Content};
    ghost use Rattle.plain_machine.specs.declared.event.Event.TheVariants as event;
    ghost use Rattle.plain_machine.specs.declared.event.Actor.TheVariants as actor;
    ghost use Rattle.machine.specs.Flights.{flights_in};
    ghost use Rattle.world_core.specs.declared.world.Core.TheVariants as core;
    ghost use Rattle.world_core.specs.StandsFor.{hardware_of, blocks_of, IsOff, IsBusyIn};
    ghost use Rattle.world_core.specs.Row.{SimulatesWhereTold, Simulates, CallsAtMostOnce, IsRefused, ChangesNothing};
    ghost use Rattle.world_core.specs.Row.{Restores, TellsImage};
    ghost use Rattle.world_core.specs.StepsLeft.{Ends};

    /// Does what a task asks for; refuses it if the machine doesn't run.
    pub(crate) fn task(&mut self, t: u32, op: TaskOp) -> Reply
        requires task { IsTask t }
        requires op { IsFittingOp op }
        ensures row { (c : Content) → Simulates (event.Task t op) self.old self.new result c c }
        ensures cause { TellsNewFault result → ⊥ }
        ensures hardware { hardware_of self.new ≡ hardware_of self.old }
        ensures blocks { blocks_of self.new ≡ blocks_of self.old }
        ensures core { self.new.core ≡ self.old.core }
        ensures refused { IsRefused (event.Task t op) self.old result → ChangesNothing self.old self.new }
    {
        match self.core {
            Core::Off { .. } => Reply::NotOn,
            Core::Asleep => Reply::Sleeping,
            Core::BootBegun(_)
            | Core::BootSynced(_)
            | Core::Hibernating
            | Core::Waking
            | Core::Loading => Reply::Frozen,
            Core::Running => self.ask(t, op),
        }
    }

    /// Does what a task asks of a machine that runs.
    fn ask(&mut self, t: u32, op: TaskOp) -> Reply
        requires running { self.old.core ≡ core.Running }
        requires task { IsTask t }
        requires op { IsFittingOp op }
        ensures row { (c : Content) → Simulates (event.Task t op) self.old self.new result c c }
        ensures cause { TellsNewFault result → ⊥ }
        ensures hardware { hardware_of self.new ≡ hardware_of self.old }
        ensures blocks { blocks_of self.new ≡ blocks_of self.old }
        ensures core { self.new.core ≡ self.old.core }
        ensures refused { IsRefused (event.Task t op) self.old result → ChangesNothing self.old self.new }
    {
        self.machine.hw.is_hardware();
        self.machine.task(&mut self.frames, &mut self.runs, t, op)
    }

    /// Makes the step that ends a task's operation, if the machine runs and the task has one.
    pub(crate) fn step_task<D: Disk>(&mut self, disk: &mut D, t: u32) -> Reply
        requires task { IsTask t }
        requires blocks { IsOff self.old ⊎ (D.block_count disk.old ≡ blocks_of self.old) }
        ensures row { SimulatesWhereTold (event.Step (actor.Task t)) self.old self.new result (D.content disk.old)
            (D.content disk.new) }
        ensures restored { Restores (event.Step (actor.Task t)) self.old self.new result (D.content disk.old)
            (D.content disk.new) }
        ensures image { TellsImage (event.Step (actor.Task t)) self.old result (D.content disk.old) }
        ensures called { Called D.Disk (CallsAtMostOnce (event.Step (actor.Task t)) result) (TellsNewFault result)
            disk.old disk.new }
        ensures hardware { hardware_of self.new ≡ hardware_of self.old }
        ensures blocks { blocks_of self.new ≡ blocks_of self.old }
        ensures off { IsOff self.old → IsOff self.new }
        ensures refused { IsRefused (event.Step (actor.Task t)) self.old result → ChangesNothing self.old self.new }
        ensures ends { Ends (event.Step (actor.Task t)) self.old result self.new }
    {
        if !self.is_running() {
            return Reply::Idle;
        }
        if !self.machine.is_in_flight(t) {
            return Reply::Idle;
        }
        self.finish(disk, t)
    }

    fn is_running(&self) -> bool
        ensures running { IsTrue result ↔ (self.now.core ≡ core.Running) }
        ensures busy { IsBusyIn self.now }
    {
        matches!(self.core, Core::Running)
    }

    /// Makes the step that ends a task's operation.
    fn finish<D: Disk>(&mut self, disk: &mut D, t: u32) -> Reply
        requires task { IsTask t }
        requires running { self.old.core ≡ core.Running }
        requires flies { IsSome (flights_in self.old.machine.flights t) }
        requires blocks { D.block_count disk.old ≡ blocks_of self.old }
        ensures row { SimulatesWhereTold (event.Step (actor.Task t)) self.old self.new result (D.content disk.old)
            (D.content disk.new) }
        ensures called { Called D.Disk (CallsAtMostOnce (event.Step (actor.Task t)) result) (TellsNewFault result)
            disk.old disk.new }
        ensures hardware { hardware_of self.new ≡ hardware_of self.old }
        ensures blocks { blocks_of self.new ≡ blocks_of self.old }
        ensures core { self.new.core ≡ self.old.core }
        ensures works { result ≢ reply.Idle }
    {
        self.machine.hw.is_hardware();
        self.machine
            .finish(&mut self.frames, &mut self.runs, disk, t)
    }
}
