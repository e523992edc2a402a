ghost use Rattle.std.specs.Prelude.{◌≡◌, ◌⊎◌};
ghost use Rattle.definitions.specs.Disk.{Content};
ghost use Rattle.protocol_laws.specs.Rows.{TellsNewFault};
ghost use Rattle.hib_core.specs.Hibernation.{perhaps_held};
ghost use Rattle.hib_core.specs.declared.phase.Phase.TheVariants as phase;
ghost use Rattle.sector_disk.specs.Called.{Called, OneCall};

use crate::Hib;
use crate::hib::Stage;
use frame_arena::Frames;
use machine::Machine;
use plain_machine::{Held, Left, Reply};
use sector_disk::Disk;
use swap_slots::FreeRuns;
use unmark::{Unmark, UnmarkStep};

/// The number of steps of a settling: a read, a write and a sync.
const STEPS: u32 = 3;

// Settling: takes the mark of a held image back while the machine runs (swsusp_unmark, kernel/power/swap.c; that it is
// a job by itself is own).
impl Hib {
    ghost use Rattle.unmark.specs.declared.unmarking.Unmark.{Unmark};
    ghost use Rattle.hib_core.specs.declared.hib.Stage.TheVariants as stage;
    ghost use Rattle.hib_core.specs.declared.hib.Job.TheVariants as job;
    ghost use Rattle.hib_core.specs.Begin.{IsRefusedWith, LeavesFrames};
    ghost use Rattle.hib_core.specs.Hibernation.{phase_of, phase_told};
    ghost use Rattle.hib_core.specs.Ready.{CanBegin, CanStep, IsBusy};
    ghost use Rattle.hib_core.specs.Row.{IsBegun};
    ghost use Rattle.hib_core.specs.Stepped.{HasStepped};

    /// Begins a settling. Refuses it if a task has an unfinished operation, or if no image is held.
    pub(crate) fn settle(&mut self, machine: &Machine, frames: &Frames, runs: &FreeRuns) -> Reply
        requires ready { CanBegin machine.now frames.now runs.now self.old }
        ensures row { (c : Content) → IsBegun machine.now frames.now frames.now self.new job.Settle result c }
        ensures phase { phase_of self.new ≡ phase_told result }
        ensures begun { (phase_told result ≡ phase.UnderWay) ⊎ (phase_told result ≡ phase.Runs) }
        ensures ready { IsBusy self.new → CanStep machine.now frames.now runs.now self.new }
        ensures zones { self.new.snapshot.zones ≡ self.old.snapshot.zones }
        ensures no_fault { TellsNewFault result → ⊥ }
        ensures refused { IsRefusedWith result → LeavesFrames frames.now frames.now result }
    {
        machine.blocks_fit();
        machine.hw.is_hardware();
        if let Some(task) = machine.busy() {
            self.stage = Stage::Idle;
            return Reply::Busy { task };
        }
        if machine.held == Held::No {
            self.stage = Stage::Idle;
            return Reply::NothingHeld;
        }
        self.stage = Stage::Settle(Unmark::begin());
        Reply::More { k: 0, of: STEPS }
    }

    /// Makes the next call of a settling. If the read fails, the machine runs on as before. After the sync no image
    /// exists, and its slots are free.
    pub(crate) fn settle_on<D: Disk>(
        &mut self,
        machine: &mut Machine,
        frames: &mut Frames,
        runs: &mut FreeRuns,
        disk: &mut D,
    ) -> Reply
        requires ready { CanStep machine.old frames.old runs.old self.old }
        requires blocks { D.block_count disk.old ≡ machine.old.blocks }
        requires at { (unmark : Unmark) × (self.old.stage ≡ stage.Settle unmark) }
        ensures stepped { HasStepped machine.old frames.old self.old machine.new frames.new runs.new self.new result
            (D.content disk.old) (D.content disk.new) }
        ensures called { Called D.Disk OneCall (TellsNewFault result) disk.old disk.new }
    {
        let Stage::Settle(unmark) = &mut self.stage else {
            unreachable!()
        };
        let block = machine.hw.extents().block(0);
        match unmark.step(block as u32, disk) {
            UnmarkStep::Read => Reply::More { k: 1, of: STEPS },
            UnmarkStep::Written => Reply::More { k: 2, of: STEPS },
            UnmarkStep::Synced => {
                self.give_up(machine, frames, runs);
                machine.held = Held::No;
                Reply::Settled
            }
            UnmarkStep::ReadFault => {
                self.stage = Stage::Idle;
                Reply::ReadFault { left: Left::Same }
            }
            UnmarkStep::WriteFault => {
                self.stop_unsure(machine);
                Reply::WriteFault { left: Left::Unsure }
            }
            UnmarkStep::SyncFault => {
                self.stop_unsure(machine);
                Reply::SyncFault { left: Left::Unsure }
            }
        }
    }

    /// Ends the settling when the image may still exist: records that it is perhaps held, and leaves its slots taken.
    fn stop_unsure(&mut self, machine: &mut Machine)
        ensures hib { self.new ≡ record self.old { stage = stage.Idle } }
        ensures machine { machine.new ≡ record machine.old { held = perhaps_held machine.old.held } }
    {
        self.stage = Stage::Idle;
        machine.held = perhaps(machine.held);
    }
}

/// Returns what is held after a call that may have removed the image.
fn perhaps(held: Held) -> Held
    ensures { result ≡ perhaps_held held }
{
    match held {
        Held::No => Held::No,
        Held::Yes | Held::Perhaps => Held::Perhaps,
    }
}
