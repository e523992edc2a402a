ghost use Rattle.std.specs.Prelude.{◌≡◌, ℕ, List};
ghost use Rattle.protocol_laws.specs.Rows.{TellsNewFault};
ghost use Rattle.plain_machine.specs.declared.reply.Reply.TheVariants as reply;
ghost use Rattle.plain_machine.specs.Mark.{mark_flags};
ghost use Rattle.sector_disk.specs.Called.{Called, OneCall};
ghost use Rattle.unmark.specs.Unmarking.{from_write};

use crate::Hib;
use crate::hib::{Ending, Stage};
use frame_arena::Frames;
use image_format::{SF_NOCOMPRESS_MODE, SF_SKIPS_ZEROS, mark};
use machine::Machine;
use page_core::{Failed, Page};
use plain_machine::{Reply, UndoCall};
use sector_disk::Disk;
use snapshot::Snapshot;
use std::mem::replace;
use swap_slots::FreeRuns;
use unmark::Unmark;

// The mark (mark_swapfiles, kernel/power/swap.c).
impl Hib {
    ghost use Rattle.hib_core.specs.declared.hib.Saving.{Saving};
    ghost use Rattle.hib_core.specs.declared.hib.Stage.TheVariants as stage;
    ghost use Rattle.hib_core.specs.Ready.{CanStep};
    ghost use Rattle.hib_core.specs.Stepped.{HasStepped};

    /// Writes the header block with the mark. If that fails, the mark may or may not be on the disk, and an undo
    /// begins.
    pub(crate) fn write_mark<D: Disk>(
        &mut self,
        machine: &Machine,
        frames: &Frames,
        runs: &FreeRuns,
        disk: &mut D,
    ) -> Reply
        requires ready { CanStep machine.now frames.now runs.now self.old }
        requires blocks { D.block_count disk.old ≡ machine.now.blocks }
        requires at { (saving : Saving) × (header : List ℕ) × (self.old.stage ≡ stage.Mark saving header) }
        ensures stepped { HasStepped machine.now frames.now self.old machine.now frames.now runs.now self.new result
            (D.content disk.old) (D.content disk.new) }
        ensures called { Called D.Disk OneCall (TellsNewFault result) disk.old disk.new }
    {
        let Stage::Mark(saving, header) = &self.stage else {
            unreachable!()
        };
        let (first, flags) = (u64::from(saving.first), flags(&self.snapshot));
        let marked = mark(header, first, flags, machine.hw.hw_sig());
        let block = machine.hw.extents().block(0);
        match disk.write(block as u32, &marked) {
            Ok(()) => {
                let saving = saving.after_step();
                self.stage = Stage::End(saving, marked);
                saving.more()
            }
            Err(Failed) => self.begin_undo(UndoCall::Write, marked),
        }
    }

    /// Syncs the mark. This ends the hibernation: the machine is off, or sleeps after a suspend. If the sync fails, an
    /// undo begins.
    pub(crate) fn sync_mark<D: Disk>(
        &mut self,
        machine: &Machine,
        frames: &Frames,
        runs: &FreeRuns,
        disk: &mut D,
    ) -> Reply
        requires ready { CanStep machine.now frames.now runs.now self.old }
        requires blocks { D.block_count disk.old ≡ machine.now.blocks }
        requires at { (saving : Saving) × (header : List ℕ) × (self.old.stage ≡ stage.End saving header) }
        ensures stepped { HasStepped machine.now frames.now self.old machine.now frames.now runs.now self.new result
            (D.content disk.old) (D.content disk.new) }
        ensures called { Called D.Disk OneCall (TellsNewFault result) disk.old disk.new }
    {
        let Stage::End(saving, header) = replace(&mut self.stage, Stage::Idle) else {
            unreachable!()
        };
        match disk.sync() {
            Ok(()) => match saving.ending {
                Ending::SwitchesOff => {
                    self.stage = Stage::Over;
                    Reply::Hibernated { n: saving.saved }
                }
                Ending::Sleeps => {
                    self.stage = Stage::Asleep;
                    Reply::Asleep { n: saving.saved }
                }
            },
            Err(Failed) => self.begin_undo(UndoCall::Sync, header),
        }
    }

    /// Begins an undo, as the mark may be on the disk: keeps the marked header block, to take the mark back.
    fn begin_undo(&mut self, call: UndoCall, marked: Page) -> Reply
        ensures hib { self.new ≡ record self.old { stage = stage.Undo call (from_write marked) } }
        ensures reply { result ≡ reply.Undo call 0 }
    {
        self.stage = Stage::Undo(call, Unmark::of(marked));
        Reply::Undo { call, k: 0 }
    }
}

/// Returns the flags of the mark.
fn flags(snapshot: &Snapshot) -> u32
    ensures { result ≡ mark_flags snapshot.now.format }
{
    match snapshot.zeros() {
        None => SF_NOCOMPRESS_MODE,
        Some(_) => SF_NOCOMPRESS_MODE + SF_SKIPS_ZEROS,
    }
}
