ghost use Rattle.std.specs.Prelude.{◌≡◌, false};
ghost use Rattle.protocol_laws.specs.Rows.{TellsNewFault, is_idle};
ghost use Rattle.plain_machine.specs.Step.{undone_fault};
ghost use Rattle.plain_machine.specs.declared.held.Held.TheVariants.{Perhaps};
ghost use Rattle.plain_machine.specs.declared.reply.Left.TheVariants.{Unsure};
ghost use Rattle.sector_disk.specs.Called.{Called, OneCall};

use crate::Hib;
use crate::hib::Stage;
use frame_arena::Frames;
use machine::Machine;
use plain_machine::{Held, Left, Reply, UndoCall};
use sector_disk::Disk;
use swap_slots::FreeRuns;
use unmark::UnmarkStep;

// Undoing a mark whose write or sync failed (swsusp_unmark, kernel/power/swap.c).
impl Hib {
    ghost use Rattle.plain_machine.specs.declared.reply.UndoCall.{UndoCall};
    ghost use Rattle.unmark.specs.declared.unmarking.Unmark.{Unmark};
    ghost use Rattle.hib_core.specs.declared.hib.Stage.TheVariants as stage;
    ghost use Rattle.hib_core.specs.Ready.{CanStep};
    ghost use Rattle.hib_core.specs.Stepped.{HasStepped};

    /// Makes the next call of an undo. After the sync no image exists, its slots are free, and the machine runs.
    pub(crate) fn undo_mark<D: Disk>(
        &mut self,
        machine: &mut Machine,
        frames: &mut Frames,
        runs: &mut FreeRuns,
        disk: &mut D,
    ) -> Reply
        requires ready { CanStep machine.old frames.old runs.old self.old }
        requires blocks { D.block_count disk.old ≡ machine.old.blocks }
        requires at { (call : UndoCall) × (unmark : Unmark) × (self.old.stage ≡ stage.Undo call unmark) }
        ensures stepped { HasStepped machine.old frames.old self.old machine.new frames.new runs.new self.new result
            (D.content disk.old) (D.content disk.new) }
        ensures called { Called D.Disk OneCall (TellsNewFault result) disk.old disk.new }
    {
        let Stage::Undo(call, unmark) = &mut self.stage else {
            unreachable!()
        };
        let call = *call;
        let block = machine.hw.extents().block(0);
        match unmark.step(block as u32, disk) {
            UnmarkStep::Written => Reply::Undo { call, k: 1 },
            UnmarkStep::Synced => {
                self.give_up(machine, frames, runs);
                machine.held = Held::No;
                undone(call, Left::Gone)
            }
            UnmarkStep::WriteFault | UnmarkStep::SyncFault => self.leave_unsure(machine, call),
            UnmarkStep::Read | UnmarkStep::ReadFault => unreachable!(),
        }
    }

    /// Ends the undo when the image may still exist: the machine runs, and records that an image is perhaps held.
    fn leave_unsure(&mut self, machine: &mut Machine, call: UndoCall) -> Reply
        ensures hib { self.new ≡ record self.old { stage = stage.Idle } }
        ensures machine { machine.new ≡ record machine.old { held = Perhaps } }
        ensures reply { result ≡ undone_fault call Unsure }
        ensures works { is_idle result ≡ false }
    {
        self.stage = Stage::Idle;
        machine.held = Held::Perhaps;
        undone(call, Left::Unsure)
    }
}

/// Returns the fault of the call whose failure began the undo.
fn undone(call: UndoCall, left: Left) -> Reply
    ensures reply { result ≡ undone_fault call left }
    ensures works { is_idle result ≡ false }
{
    match call {
        UndoCall::Write => Reply::WriteFault { left },
        UndoCall::Sync => Reply::SyncFault { left },
    }
}
