ghost use Rattle.std.specs.Prelude.{◌≡◌, ◌≢◌, ◌<◌, length};
ghost use Rattle.machine.specs.Running.{slot_table_of};
ghost use Rattle.hib_core.specs.WakingRow.{IsLeft};
ghost use Rattle.swap_slots.specs.Table.{LiesIn, Matches};
ghost use Rattle.world_core.specs.StandsFor.{core_waking};
ghost use Rattle.sector_disk.specs.Called.{Called};

use crate::World;
use crate::world::Core;
use frame_arena::Frames;
use hib_core::waking::{Phase, Waker};
use machine::{Machine, slot_table};
use plain_machine::{Held, Reply};
use sector_disk::Disk;
use swap_slots::FreeRuns;

// Waking after a suspend to both: the mark of the image is taken back before the machine runs (swsusp_unmark,
// kernel/power/swap.c, after the sleep in hibernate of kernel/power/hibernate.c).
impl World {
    ghost use Rattle.definitions.specs.Disk.{Content};
    ghost use Rattle.plain_machine.specs.declared.event.Event.TheVariants as event;
    ghost use Rattle.plain_machine.specs.declared.event.Actor.TheVariants as actor;
    ghost use Rattle.plain_machine.specs.declared.reply.Reply.TheVariants as reply;
    ghost use Rattle.protocol_laws.specs.Rows.{TellsNewFault};
    ghost use Rattle.world_core.specs.declared.world.Core.TheVariants as core;
    ghost use Rattle.world_core.specs.Stepped.{HasStepped};
    ghost use Rattle.world_core.specs.StandsFor.{hardware_of, blocks_of, IsOff};
    ghost use Rattle.world_core.specs.StepsLeft.{steps_left};
    ghost use Rattle.world_core.specs.Row.{SimulatesWhereTold, Simulates, CallsAtMostOnce, IsRefused, ChangesNothing};
    ghost use Rattle.world_core.specs.Row.{Restores, TellsImage, WakesWith};

    /// Begins to wake, if the machine is asleep.
    pub(crate) fn wake(&mut self) -> Reply
        ensures row { (c : Content) → Simulates event.Wake self.old self.new result c c }
        ensures cause { TellsNewFault result → ⊥ }
        ensures hardware { hardware_of self.new ≡ hardware_of self.old }
        ensures blocks { blocks_of self.new ≡ blocks_of self.old }
        ensures off { IsOff self.old → IsOff self.new }
        ensures refused { IsRefused event.Wake self.old result → ChangesNothing self.old self.new }
    {
        match self.core {
            Core::Asleep => self.begin_wake(),
            _ => Reply::NotAsleep,
        }
    }

    fn begin_wake(&mut self) -> Reply
        requires asleep { self.old.core ≡ core.Asleep }
        ensures row { (c : Content) → Simulates event.Wake self.old self.new result c c }
        ensures reply { result ≡ reply.More 0 3 }
        ensures hardware { hardware_of self.new ≡ hardware_of self.old }
        ensures blocks { blocks_of self.new ≡ blocks_of self.old }
    {
        self.waker = Waker::begin();
        self.core = Core::Waking;
        Reply::More { k: 0, of: 3 }
    }

    /// Makes the next step of waking. Once the mark is taken back, the image's slots are given back and the machine
    /// runs.
    pub(crate) fn step_wake<D: Disk>(&mut self, disk: &mut D) -> Reply
        requires wakes { self.old.core ≡ core.Waking }
        requires blocks { D.block_count disk.old ≡ blocks_of self.old }
        ensures stepped { HasStepped self.old self.new result (D.content disk.old) (D.content disk.new) }
        ensures called { Called D.Disk (CallsAtMostOnce (event.Step actor.Core) result) (TellsNewFault result)
            disk.old disk.new }
        ensures memory { WakesWith self.old self.new result }
    {
        self.frames.are_pages();
        self.machine.hw.is_hardware();
        let reply = self.waker.step(&self.machine, disk);
        leave(&mut self.machine, &mut self.frames, &mut self.runs, &reply);
        let phase = self.waker.phase();
        self.core = core_in(phase);
        reply
    }
}

/// Changes the machine by the reply to a step of waking: once it runs, it holds nothing and the image's slots are given
/// back.
fn leave(machine: &mut Machine, frames: &mut Frames, runs: &mut FreeRuns, reply: &Reply)
    requires table { LiesIn frames.old (slot_table_of machine.old.hw) }
    requires matches { Matches frames.old (slot_table_of machine.old.hw) runs.old }
    ensures left { IsLeft reply.now machine.old frames.old machine.new frames.new }
    ensures matches { Matches frames.new (slot_table_of machine.new.hw) runs.new }
    ensures size { length frames.new ≡ length frames.old }
{
    if let Reply::Woken = reply {
        machine.held = Held::No;
        slot_table(&machine.hw).give_image(frames, runs);
    }
}

/// Returns what the machine is at in this phase of a waking.
fn core_in(phase: Phase) -> Core
    ensures { result ≡ core_waking phase }
{
    match phase {
        Phase::UnderWay => Core::Waking,
        Phase::Runs => Core::Running,
        Phase::Asleep => Core::Asleep,
    }
}
