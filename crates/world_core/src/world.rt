ghost use Rattle.std.specs.Prelude.{◌≡◌, ◌≢◌, ◌↔◌, ◌⊎◌, ◌≤◌, true, length, Option, Some, None, IfOk, IfSome, IsNone};
ghost use Rattle.std.specs.Prelude.{IsSome, IsTrue};
ghost use Rattle.definitions.specs.Zones.{top};
ghost use Rattle.plain_machine.specs.Machine.{Memory, Fits};
ghost use Rattle.machine.specs.Running.{AreReserved};
ghost use Rattle.protocol_laws.specs.Rows.{TellsNewFault};
ghost use Rattle.sector_disk.specs.Called.{Called};
ghost use Rattle.world_core.specs.World.{World as WorldValue};
ghost use Rattle.world_core.specs.Kept.{kept_world, IsKept};

use frame_arena::Frames;
use hib_core::waking::Waker;
use hib_core::{Hib, Job};
use machine::{Dump, Hardware, Machine, slot_table};
use page_core::NoMemory;
use plain_machine::{Actor, BootFrom, Event, Reply};
use resume_core::Load;
use sector_disk::Disk;
use std::alloc::Global;
use std::marker::Model;
use swap_slots::FreeRuns;

/// A simulated machine: what it is at, its page frames, its hibernation, its waking and its resume. It takes all its
/// memory when it is created.
#[derive(Drop)]
pub struct World {
    pub(crate) machine: Machine,
    pub(crate) frames: Frames,
    /// The free slots, while the machine runs, hibernates or settles.
    pub(crate) runs: FreeRuns,
    pub(crate) hib: Hib,
    pub(crate) load: Load,
    pub(crate) waker: Waker,
    pub(crate) core: Core,
}

/// What the machine as a whole is at.
#[derive(Clone, Copy, Debug, PartialEq, Eq)]
pub(crate) enum Core {
    /// Nothing, and whether memory is still a dump's.
    Off { keeps_dump: bool },
    Running,
    /// A boot has begun.
    BootBegun(BootFrom),
    /// A boot has synced the disk.
    BootSynced(BootFrom),
    /// A hibernation, its undo or a settling is under way: `hib` knows which.
    Hibernating,
    /// Nothing: memory is kept, and its image is on the disk.
    Asleep,
    Waking,
    Loading,
}

impl Model for World {
    ghost Value = { WorldValue };

    ghost view = { kept_world };

    ghost invariant = { IsKept };
}

impl World {
    ghost use Rattle.plain_machine.specs.Fitting.{IsFitting, IsFittingActor};
    ghost use Rattle.definitions.specs.Disk.{Content, DiskImage, IsMixture, HasRisen, Changes, Elapses};
    ghost use Rattle.plain_machine.specs.declared.event.Event.TheVariants as event;
    ghost use Rattle.plain_machine.specs.declared.event.Actor.TheVariants as actor;
    ghost use Rattle.plain_machine.specs.State.{State};
    ghost use Rattle.plain_machine.specs.Shows.{activity_in, runs, seen_frames};
    ghost use Rattle.world_core.specs.declared.world.Core.TheVariants as core;
    ghost use Rattle.world_core.specs.StandsFor.{StandsFor, hardware_of, blocks_of, IsOff, IsNewWorld, IsKeptDump};
    ghost use Rattle.world_core.specs.Row.{SimulatesWhereTold, CallsAtMostOnce, IsNoCut, IsRefused, ChangesNothing};
    ghost use Rattle.world_core.specs.StepsLeft.{Ends};
    ghost use Rattle.world_core.specs.Row.{LeavesMemory, RestartsAt, blocks_after, Restores, TellsImage};
    ghost use Rattle.world_core.specs.Orders.{orders_after};

    /// A machine that is off, with page frames of zeros.
    pub fn create(alloc: Global, hw: Hardware) -> Result<World, NoMemory>
        ensures { IfOk result (IsNewWorld hw None) }
    {
        let frames = Frames::create(alloc, hw.zones().top())?;
        World::over(alloc, hw, frames, false)
    }

    /// A machine that is off, and keeps the dump's memory until a boot or a resume is accepted.
    pub fn from_dump(alloc: Global, dump: Dump) -> Result<World, NoMemory>
        requires { Fits dump.hw dump.frames }
        ensures new { IfOk result (IsNewWorld dump.hw (Some dump.frames)) }
        ensures frames { IfOk result (λ w. w.frames ≡ dump.frames) }
    {
        World::over(alloc, dump.hw, dump.frames, true)
    }

    /// A machine that is off, with these page frames. `keeps_dump` says whether they are a dump's.
    fn over(
        alloc: Global,
        hw: Hardware,
        frames: Frames,
        keeps_dump: bool,
    ) -> Result<World, NoMemory>
        requires size { length frames ≡ top hw.zones }
        requires tables { keeps_dump ≡ true → AreReserved hw frames }
        ensures new { IfOk result (λ w. (kept : Option Memory) → IsKeptDump hw frames keeps_dump kept →
            IsNewWorld hw kept w) }
        ensures frames { IfOk result (λ w. w.frames ≡ frames) }
    {
        let runs = FreeRuns::create(alloc, hw.slots())?;
        let hib = Hib::create(alloc, &hw)?;
        let load = Load::create(alloc, &hw)?;
        Ok(World {
            machine: Machine::of(hw),
            frames,
            runs,
            hib,
            load,
            waker: Waker::begin(),
            core: Core::Off { keeps_dump },
        })
    }

    /// The content of the page frames.
    pub fn frames(&self) -> &Frames
        ensures frames { result.now ≡ self.now.frames }
        ensures size { length result.now ≡ top (hardware_of self.now).zones }
    {
        &self.frames
    }

    /// The machine as it runs, with the slots of an image given back, if it runs.
    pub fn into_dump(mut self) -> Option<Dump>
        ensures runs { IsSome result ↔ (self.core ≡ core.Running) }
        ensures idle { IsNone result → (c : Content) (a : State) → StandsFor self c a → activity_in a ≢ runs }
        ensures hardware { IfSome result (λ dump. dump.hw ≡ hardware_of self) }
        ensures frames { IfSome result (λ dump. dump.frames ≡ seen_frames (hardware_of self) self.frames) }
        ensures size { IfSome result (λ dump. length dump.frames ≡ top dump.hw.zones) }
    {
        if self.core != Core::Running {
            return None;
        }
        let hw = self.machine.hw;
        slot_table(&hw).give_image(&mut self.frames, &mut self.runs);
        Some(Dump {
            hw,
            frames: self.frames,
        })
    }

    /// How many blocks the disk had at the last boot that was accepted, 0 before any.
    pub fn blocks(&self) -> u32
        ensures { result ≡ blocks_of self.now }
    {
        self.machine.blocks
    }

    /// Lets an event happen to the machine, and returns its reply. It makes at most one call of the disk.
    pub fn event<D: Disk>(&mut self, disk: &mut D, event: Event) -> Reply
        requires fits { IsFitting event }
        requires blocks { IsOff self.old ⊎ (D.block_count disk.old ≡ blocks_of self.old) }
        ensures row { SimulatesWhereTold event self.old self.new result (D.content disk.old) (D.content disk.new) }
        ensures restored { Restores event self.old self.new result (D.content disk.old) (D.content disk.new) }
        ensures image { TellsImage event self.old result (D.content disk.old) }
        ensures cause { TellsNewFault result → HasRisen (D.faults disk.old) (D.faults disk.new) }
        ensures faults { D.faults disk.old ≤ D.faults disk.new }
        ensures calls { CallsAtMostOnce event result (D.calls disk.old) (D.calls disk.new) }
        ensures orders { D.orders disk.new ≡ orders_after event (D.orders disk.old) }
        ensures cut { RestartsAt event (D.content disk.old) (D.content disk.new) }
        ensures telling { D.tells_moments disk.new ≡ D.tells_moments disk.old }
        ensures inside { IsNoCut event → IsTrue (D.tells_moments disk.old) → (v : DiskImage) →
            D.left_since disk.new (D.moment disk.old) v →
            Changes (λ old new. IsMixture old new v) (D.content disk.old) (D.content disk.new) }
        ensures time { IsNoCut event → IsTrue (D.tells_moments disk.old) →
            Changes (Elapses (D.moment disk.old) (D.moment disk.new)
            (D.left_since disk.old) (D.left_since disk.new)) (D.content disk.old) (D.content disk.new) }
        ensures hardware { hardware_of self.new ≡ hardware_of self.old }
        ensures blocks { IsOff self.new ⊎ (D.block_count disk.new ≡ blocks_of self.new) }
        ensures kept { blocks_of self.new ≡ blocks_after event result (D.block_count disk.old) (blocks_of self.old) }
        ensures refused { IsRefused event self.old result → ChangesNothing self.old self.new }
        ensures ends { Ends event self.old result self.new }
        ensures memory { LeavesMemory event self.old result self.new }
    {
        match event {
            Event::Boot(from) => self.boot(disk.blocks(), from),
            Event::Task(t, op) => self.task(t, op),
            Event::Step(actor) => self.step(disk, actor),
            Event::Hibernate(format) => self.begin(Job::Hibernate(format)),
            Event::Suspend(format) => self.begin(Job::Suspend(format)),
            Event::Wake => self.wake(),
            Event::Settle => self.begin(Job::Settle),
            Event::Shrink(want) => self.shrink(want),
            Event::Resume(loader, check) => self.resume(disk.blocks(), loader, check),
            Event::Cut(pick) => self.cut(disk, pick),
            Event::Arm { first, count, pick } => self.arm(disk, first, count, pick),
        }
    }

    /// Makes the next step of the core or of a task.
    fn step<D: Disk>(&mut self, disk: &mut D, actor: Actor) -> Reply
        requires actor { IsFittingActor actor }
        requires blocks { IsOff self.old ⊎ (D.block_count disk.old ≡ blocks_of self.old) }
        ensures row { SimulatesWhereTold (event.Step actor) self.old self.new result (D.content disk.old)
            (D.content disk.new) }
        ensures restored { Restores (event.Step actor) self.old self.new result (D.content disk.old)
            (D.content disk.new) }
        ensures image { TellsImage (event.Step actor) self.old result (D.content disk.old) }
        ensures called { Called D.Disk (CallsAtMostOnce (event.Step actor) result) (TellsNewFault result)
            disk.old disk.new }
        ensures hardware { hardware_of self.new ≡ hardware_of self.old }
        ensures blocks { blocks_of self.new ≡ blocks_of self.old }
        ensures off { IsOff self.old → IsOff self.new }
        ensures refused { IsRefused (event.Step actor) self.old result → ChangesNothing self.old self.new }
        ensures ends { Ends (event.Step actor) self.old result self.new }
        ensures memory { LeavesMemory (event.Step actor) self.old result self.new }
    {
        match actor {
            Actor::Task(t) => self.step_task(disk, t),
            Actor::Core => match self.core {
                Core::Off { .. } | Core::Running | Core::Asleep => Reply::Idle,
                Core::BootBegun(from) => self.sync_for_boot(disk, from),
                Core::BootSynced(from) => self.finish_boot(disk, from),
                Core::Hibernating => self.step_hibernation(disk),
                Core::Waking => self.step_wake(disk),
                Core::Loading => self.step_resume(disk),
            },
        }
    }
}
