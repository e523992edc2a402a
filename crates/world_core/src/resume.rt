ghost use Rattle.std.specs.Prelude.{◌≡◌, ◌≢◌, ◌<◌, ◌≤◌, ℕ, ◌⊎◌, true};
ghost use Rattle.plain_machine.specs.Refusals.{asks_dump_to_load};
ghost use Rattle.world_core.specs.StandsFor.{core_loading};
ghost use Rattle.sector_disk.specs.Called.{Called};

use crate::World;
use crate::world::Core;
use plain_machine::{IdentCheck, Loader, Reply};
use resume_core::Phase;
use sector_disk::Disk;

// A resume: its begin and its steps (software_resume, kernel/power/hibernate.c).
impl World {
    ghost use Rattle.definitions.specs.Disk.{Content};
    ghost use Rattle.plain_machine.specs.declared.event.Event.TheVariants as event;
    ghost use Rattle.plain_machine.specs.declared.event.Actor.TheVariants as actor;
    ghost use Rattle.protocol_laws.specs.Rows.{TellsNewFault};
    ghost use Rattle.world_core.specs.declared.world.Core.TheVariants as core;
    ghost use Rattle.world_core.specs.Stepped.{HasStepped};
    ghost use Rattle.world_core.specs.StandsFor.{hardware_of, blocks_of, IsOff, keeps_dump};
    ghost use Rattle.plain_machine.specs.declared.reply.Reply.TheVariants as reply;
    ghost use Rattle.world_core.specs.StepsLeft.{Ends, steps_left};
    ghost use Rattle.world_core.specs.Row.{SimulatesWhereTold, Simulates, CallsAtMostOnce, IsRefused, ChangesNothing};
    ghost use Rattle.world_core.specs.Row.{Restores, TellsImage, blocks_after};

    /// Begins a resume on a disk of `blocks` blocks, if the machine is off. A dump's loader is the memory that is kept.
    pub(crate) fn resume(&mut self, blocks: u32, loader: Loader, check: IdentCheck) -> Reply
        ensures row { (c : Content) → Simulates (event.Resume loader check) self.old self.new result c c }
        ensures cause { TellsNewFault result → ⊥ }
        ensures hardware { hardware_of self.new ≡ hardware_of self.old }
        ensures blocks { ((self.new.core ≡ self.old.core) × (blocks_of self.new ≡ blocks_of self.old))
            ⊎ (blocks_of self.new ≡ blocks) }
        ensures kept { blocks_of self.new ≡ blocks_after (event.Resume loader check) result blocks
            (blocks_of self.old) }
        ensures refused { IsRefused (event.Resume loader check) self.old result → ChangesNothing self.old self.new }
        ensures ends { Ends (event.Resume loader check) self.old result self.new }
    {
        if !self.is_off() {
            return Reply::NotOff;
        }
        if asks_dump(&loader) && !self.keeps_dump() {
            return Reply::NoDump;
        }
        self.begin_resume(blocks, loader, check)
    }

    /// Begins the resume. For a dump's loader, memory is the dump's.
    fn begin_resume(&mut self, blocks: u32, loader: Loader, check: IdentCheck) -> Reply
        requires off { IsOff self.old }
        requires dump { asks_dump_to_load loader ≡ true → keeps_dump self.old.core ≡ true }
        ensures row { (c : Content) → Simulates (event.Resume loader check) self.old self.new result c c }
        ensures cause { TellsNewFault result → ⊥ }
        ensures hardware { hardware_of self.new ≡ hardware_of self.old }
        ensures blocks { blocks_of self.new ≡ blocks }
        ensures reply { result ≡ reply.Loading 0 }
        ensures few { steps_left self.new ≤ 65800 }
    {
        self.machine.blocks = blocks;
        let reply = self
            .load
            .begin(&self.machine, &mut self.frames, loader, check);
        let phase = self.load.phase();
        self.core = core_in(phase);
        reply
    }

    /// Makes the next step of a resume.
    pub(crate) fn step_resume<D: Disk>(&mut self, disk: &mut D) -> Reply
        requires resumes { self.old.core ≡ core.Loading }
        requires blocks { D.block_count disk.old ≡ blocks_of self.old }
        ensures stepped { HasStepped self.old self.new result (D.content disk.old) (D.content disk.new) }
        ensures stopped { ((k : ℕ) → result ≢ reply.Loading k) → ((n : ℕ) → result ≢ reply.Resumed n) → IsOff self.new }
        ensures called { Called D.Disk (CallsAtMostOnce (event.Step actor.Core) result) (TellsNewFault result)
            disk.old disk.new }
    {
        let reply = self
            .load
            .step(&mut self.machine, &mut self.frames, &mut self.runs, disk);
        let phase = self.load.phase();
        self.core = core_in(phase);
        reply
    }
}

/// Returns whether the loader is a dump's.
fn asks_dump(loader: &Loader) -> bool
    ensures { result ≡ asks_dump_to_load loader.now }
{
    matches!(loader, Loader::Table)
}

/// Returns what the machine is at in this phase of a resume.
fn core_in(phase: Phase) -> Core
    ensures { result ≡ core_loading phase }
{
    match phase {
        Phase::UnderWay => Core::Loading,
        Phase::Runs => Core::Running,
        Phase::Off => Core::Off { keeps_dump: false },
    }
}
