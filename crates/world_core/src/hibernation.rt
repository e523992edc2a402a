ghost use Rattle.std.specs.Prelude.{◌≡◌, ◌≢◌, ◌<◌};
ghost use Rattle.world_core.specs.StandsFor.{core_in};
ghost use Rattle.sector_disk.specs.Called.{Called};

use crate::World;
use crate::world::Core;
use hib_core::{Job, Phase};
use plain_machine::Reply;
use sector_disk::Disk;

// A hibernation, a suspend or a settling: its begin and its steps (hibernate, kernel/power/hibernate.c; swsusp_unmark,
// kernel/power/swap.c).
impl World {
    ghost use Rattle.definitions.specs.Disk.{Content};
    ghost use Rattle.plain_machine.specs.declared.event.Event.TheVariants as event;
    ghost use Rattle.plain_machine.specs.declared.event.Actor.TheVariants as actor;
    ghost use Rattle.protocol_laws.specs.Rows.{TellsNewFault};
    ghost use Rattle.hib_core.specs.Row.{event_of};
    ghost use Rattle.world_core.specs.declared.world.Core.TheVariants as core;
    ghost use Rattle.world_core.specs.Stepped.{HasStepped};
    ghost use Rattle.world_core.specs.StandsFor.{hardware_of, blocks_of, IsOff};
    ghost use Rattle.world_core.specs.StepsLeft.{steps_left};
    ghost use Rattle.world_core.specs.Row.{SimulatesWhereTold, Simulates, CallsAtMostOnce, IsRefused, ChangesNothing};
    ghost use Rattle.world_core.specs.Row.{Restores, TellsImage, KeepsUsedFrames};
    ghost use Rattle.hib_core.specs.Leaving.{KeepsUsed};
    ghost use Rattle.plain_machine.specs.declared.reply.Reply.TheVariants as reply;

    /// Begins a hibernation or a settling, if the machine runs.
    pub(crate) fn begin(&mut self, job: Job) -> Reply
        ensures row { (c : Content) → Simulates (event_of job) self.old self.new result c c }
        ensures cause { TellsNewFault result → ⊥ }
        ensures hardware { hardware_of self.new ≡ hardware_of self.old }
        ensures blocks { blocks_of self.new ≡ blocks_of self.old }
        ensures off { IsOff self.old → IsOff self.new }
        ensures refused { IsRefused (event_of job) self.old result → ChangesNothing self.old self.new }
        ensures memory { KeepsUsed (hardware_of self.old) self.old.frames self.new.frames }
    {
        match self.core {
            Core::Off { .. } => Reply::NotOn,
            Core::Asleep => Reply::Sleeping,
            Core::BootBegun(_)
            | Core::BootSynced(_)
            | Core::Hibernating
            | Core::Waking
            | Core::Loading => Reply::Frozen,
            Core::Running => self.begin_job(job),
        }
    }

    /// Begins a hibernation or a settling.
    fn begin_job(&mut self, job: Job) -> Reply
        requires running { self.old.core ≡ core.Running }
        ensures row { (c : Content) → Simulates (event_of job) self.old self.new result c c }
        ensures cause { TellsNewFault result → ⊥ }
        ensures hardware { hardware_of self.new ≡ hardware_of self.old }
        ensures blocks { blocks_of self.new ≡ blocks_of self.old }
        ensures refused { IsRefused (event_of job) self.old result → ChangesNothing self.old self.new }
        ensures memory { KeepsUsed (hardware_of self.old) self.old.frames self.new.frames }
    {
        self.machine.hw.is_hardware();
        let reply = self
            .hib
            .begin(&mut self.machine, &mut self.frames, &mut self.runs, job);
        let phase = self.hib.phase();
        self.core = core_in(phase);
        reply
    }

    /// Makes the next step of a hibernation or a settling.
    pub(crate) fn step_hibernation<D: Disk>(&mut self, disk: &mut D) -> Reply
        requires hibernates { self.old.core ≡ core.Hibernating }
        requires blocks { D.block_count disk.old ≡ blocks_of self.old }
        ensures stepped { HasStepped self.old self.new result (D.content disk.old) (D.content disk.new) }
        ensures called { Called D.Disk (CallsAtMostOnce (event.Step actor.Core) result) (TellsNewFault result)
            disk.old disk.new }
        ensures memory { KeepsUsedFrames self.old self.new result }
    {
        self.frames.are_pages();
        let reply = self
            .hib
            .step(&mut self.machine, &mut self.frames, &mut self.runs, disk);
        let phase = self.hib.phase();
        self.core = core_in(phase);
        reply
    }
}

/// Returns what the machine is at in this phase of a hibernation or a settling.
fn core_in(phase: Phase) -> Core
    ensures { result ≡ core_in phase }
{
    match phase {
        Phase::UnderWay => Core::Hibernating,
        Phase::Runs => Core::Running,
        Phase::Off => Core::Off { keeps_dump: false },
        Phase::Asleep => Core::Asleep,
    }
}
