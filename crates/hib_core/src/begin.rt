ghost use Rattle.std.specs.Prelude.{◌≡◌, ◌≤◌, ◌⊎◌, ◌<◌, ◌+◌, ◌/◌, ◌^◌, ℕ, ⊤, length, Contains, IfOk, IfErr, IfSome};
ghost use Rattle.std.specs.Prelude.{IfNone};
ghost use Rattle.definitions.specs.Disk.{Content};
ghost use Rattle.definitions.specs.Tables.{saveable_frames};
ghost use Rattle.definitions.specs.Tables.{HasTable};
ghost use Rattle.definitions.specs.Zones.{top};
ghost use Rattle.definitions.specs.NumberPages.{meta_of};
ghost use Rattle.hib_core.specs.Begin.{pages_of, steps_of, info_of};
ghost use Rattle.plain_machine.specs.Machine.{IsOfTable};
ghost use Rattle.hib_core.specs.declared.phase.Phase.TheVariants as phase;
ghost use Rattle.plain_machine.specs.declared.reply.Reply.TheVariants as reply;
ghost use Rattle.protocol_laws.specs.Rows.{TellsNewFault};
ghost use Rattle.machine.specs.Running.{slot_table_of};
ghost use Rattle.swap_slots.specs.Table.{LiesIn, Matches};

use crate::hib::{Ending, Saving, Stage};
use crate::{Hib, Job};
use definitions::SPARE_SLOTS;
use frame_arena::Frames;
use frame_table::View;
use image_format::info::Info;
use image_write::Writer;
use machine::{Hardware, Machine, slot_table};
use page_core::Format;
use plain_machine::{Held, Reply, image_pages, image_writes};
use snapshot::Counts;
use swap_slots::FreeRuns;

// The begin of a hibernation (hibernation_snapshot, kernel/power/hibernate.c; enough_swap, kernel/power/swap.c).
impl Hib {
    ghost use Rattle.hib_core.specs.Begin.{IsRefused, IsRefusedWith, LeavesFrames, IsCounted, IsTaken};
    ghost use Rattle.hib_core.specs.Hibernation.{phase_of, phase_told};
    ghost use Rattle.hib_core.specs.Leaving.{BeginsImage, LeavesAtBegin};
    ghost use Rattle.hib_core.specs.Ready.{CanBegin, CanStep, IsBusy};
    ghost use Rattle.hib_core.specs.Row.{IsBegun, saving};
    ghost use Rattle.hib_core.specs.declared.hib.Stage.TheVariants as stage;

    /// Begins a job, or refuses it and changes nothing. A hibernation copies the saveable page frames into free ones.
    /// Makes no disk call.
    pub fn begin(
        &mut self,
        machine: &mut Machine,
        frames: &mut Frames,
        runs: &mut FreeRuns,
        job: Job,
    ) -> Reply
        requires ready { CanBegin machine.old frames.old runs.old self.old }
        ensures row { (c : Content) → IsBegun machine.old frames.old frames.new self.new job result c }
        ensures phase { phase_of self.new ≡ phase_told result }
        ensures begun { (phase_told result ≡ phase.UnderWay) ⊎ (phase_told result ≡ phase.Runs) }
        ensures ready { IsBusy self.new → CanStep machine.new frames.new runs.new self.new }
        ensures machine { machine.new ≡ machine.old }
        ensures size { length frames.new ≡ length frames.old }
        ensures zones { self.new.snapshot.zones ≡ self.old.snapshot.zones }
        ensures matches { Matches frames.new (slot_table_of machine.old.hw) runs.new }
        ensures no_fault { TellsNewFault result → ⊥ }
        ensures refused { IsRefusedWith result → LeavesFrames frames.old frames.new result }
        ensures memory { LeavesAtBegin job machine.old.hw frames.old frames.new ⊎ (frames.new ≡ frames.old) }
    {
        match job {
            Job::Hibernate(format) => {
                self.hibernate(machine, frames, runs, format, Ending::SwitchesOff)
            }
            Job::Suspend(format) => {
                self.hibernate(machine, frames, runs, format, Ending::Sleeps)
            }
            Job::Settle => self.settle(machine, frames, runs),
        }
    }

    /// Begins a hibernation with the given `ending`, or refuses it.
    fn hibernate(
        &mut self,
        machine: &Machine,
        frames: &mut Frames,
        runs: &mut FreeRuns,
        format: Format,
        ending: Ending,
    ) -> Reply
        requires ready { CanBegin machine.now frames.old runs.old self.old }
        ensures row { (c : Content) →
            IsBegun machine.now frames.old frames.new self.new (saving ending format) result c }
        ensures phase { phase_of self.new ≡ phase_told result }
        ensures begun { (phase_told result ≡ phase.UnderWay) ⊎ (phase_told result ≡ phase.Runs) }
        ensures ready { IsBusy self.new → CanStep machine.now frames.new runs.new self.new }
        ensures size { length frames.new ≡ length frames.old }
        ensures zones { self.new.snapshot.zones ≡ self.old.snapshot.zones }
        ensures matches { Matches frames.new (slot_table_of machine.now.hw) runs.new }
        ensures no_fault { TellsNewFault result → ⊥ }
        ensures refused { IsRefusedWith result → LeavesFrames frames.old frames.new result }
        ensures memory { BeginsImage machine.now.hw frames.old frames.new ⊎ (frames.new ≡ frames.old) }
    {
        machine.blocks_fit();
        machine.hw.is_hardware();
        self.stage = Stage::Idle;
        match self.accept(machine, frames, runs, format) {
            Ok(counts) => self.take(machine, frames, runs, counts, ending),
            Err(reply) => reply,
        }
    }

    /// Checks the reasons to refuse a hibernation, in their order, and counts what it saves.
    fn accept(
        &mut self,
        machine: &Machine,
        frames: &Frames,
        runs: &FreeRuns,
        format: Format,
    ) -> Result<Counts, Reply>
        requires ready { CanBegin machine.now frames.now runs.now self.old }
        ensures refused { IfErr result (λ r. IsRefused machine.now frames.now format r) }
        ensures stays { IfErr result (λ r. phase_told r ≡ phase.Runs) }
        ensures no_fault { IfErr result (λ r. TellsNewFault r → ⊥) }
        ensures counted { IfOk result (λ counts. IsCounted machine.now frames.now self.new counts) }
        ensures format { IfOk result (λ counts. self.new.snapshot.format ≡ format) }
        ensures hib { self.new ≡ record self.old { snapshot = self.new.snapshot } }
        ensures zones { self.new.snapshot.zones ≡ self.old.snapshot.zones }
    {
        let (zones, table) = (machine.hw.zones(), machine.hw.frame_table());
        if let Some(task) = machine.busy() {
            return Err(Reply::Busy { task });
        }
        if machine.held != Held::No {
            return Err(Reply::Closed);
        }
        if let Err(why) = machine.area {
            return Err(Reply::NoSwap { why });
        }
        let view = View {
            frames,
            zones,
            table,
        };
        let counts = match self.snapshot.count(&view, format) {
            Ok(counts) => counts,
            Err(short) => {
                return Err(Reply::NoFrames {
                    free: short.free,
                    need: short.need,
                });
            }
        };
        let slots = slot_table(&machine.hw);
        let (free, need) = (
            slots.free_count(frames, runs),
            image_pages(counts.n, counts.d) + SPARE_SLOTS,
        );
        if free < need {
            return Err(Reply::NoSlots { free, need });
        }
        Ok(counts)
    }

    /// Copies the pages, and takes the slot of the first map. Returns the reply that begins the hibernation.
    fn take(
        &mut self,
        machine: &Machine,
        frames: &mut Frames,
        runs: &mut FreeRuns,
        counts: Counts,
        ending: Ending,
    ) -> Reply
        requires ready { CanBegin machine.now frames.old runs.old self.old }
        requires counted { IsCounted machine.now frames.old self.old counts }
        ensures taken { IsTaken machine.now frames.old frames.new self.old self.new counts ending }
        ensures reply { result ≡ reply.More 0 (steps_of counts) }
        ensures matches { Matches frames.new (slot_table_of machine.now.hw) runs.new }
        ensures size { length frames.new ≡ length frames.old }
    {
        machine.blocks_fit();
        let (zones, table) = (machine.hw.zones(), machine.hw.frame_table());
        self.snapshot.copy(frames, zones, table);
        frames.are_pages();
        let info = info_of(&machine.hw, counts);
        let (slots, map) = (slot_table(&machine.hw), machine.hw.extents());
        let writer = Writer::begin(frames, runs, &slots, map, &info);
        let saving = Saving {
            ending,
            saved: counts.n,
            first: writer.first(),
            done: 0,
            steps: steps_of(counts),
        };
        self.stage = Stage::Write(saving, writer);
        saving.more()
    }
}

/// Returns the number of steps of a hibernation: one per page and map, and four for the mark (sync, read, write, sync).
fn steps_of(counts: Counts) -> u32
    requires saved { counts.n ≤ 65536 }
    requires some { counts.d ≤ counts.n }
    ensures { result ≡ steps_of counts }
{
    image_writes(image_pages(counts.n, counts.d)) + 4
}

/// Returns the fields of the image's info page.
fn info_of(hw: &Hardware, counts: Counts) -> Info
    requires saved { counts.n ≤ 65536 }
    requires some { counts.d ≤ counts.n }
    ensures { result ≡ info_of hw.now counts }
{
    Info {
        ident: *hw.ident(),
        physpages: u64::from(hw.zones().count()),
        image_pages: u64::from(counts.n),
        pages: u64::from(image_pages(counts.n, counts.d)),
    }
}
