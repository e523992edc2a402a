ghost use Rattle.std.specs.Prelude.{◌≡◌, ℕ, List, ◌+◌, ◌<◌, All, length};
ghost use Rattle.definitions.specs.Bytes.{IsPage};
ghost use Rattle.protocol_laws.specs.Rows.{TellsNewFault};
ghost use Rattle.plain_machine.specs.Shows.{seen_frames};
ghost use Rattle.swap_slots.specs.Table.{LiesIn, Matches};
ghost use Rattle.machine.specs.Running.{slot_table_of};
ghost use Rattle.image_format.specs.AreaKind.{area_kind};
ghost use Rattle.plain_machine.specs.UsableArea.{kind_fault};
ghost use Rattle.sector_disk.specs.Called.{Called, OneCall};
ghost use Rattle.image_write.specs.Answers.{Succeeds};
ghost use Rattle.image_write.specs.Steps.{HasSlots, KeepsSlots, Advances, ReadsOn};
ghost use Rattle.image_write.specs.Writing.{IsReady, AreOfImage, HasReadCopies, Makes, FailsToMake};
ghost use Rattle.image_write.specs.Writing.{writes_of};
ghost use Rattle.hib_core.specs.Writes.{Writes};

use crate::Hib;
use crate::hib::{Saving, Stage};
use frame_arena::Frames;
use image_format::AreaKind;
use image_write::{Sets, WriteStep, Writer};
use machine::{Machine, slot_table};
use page_core::{Failed, Page};
use plain_machine::{Left, NoSwap, Reply};
use sector_disk::Disk;
use snapshot::Snapshot;
use swap_slots::FreeRuns;

// The writes of the pages and maps, and the steps from there to the mark (save_image and swap_writer_finish,
// kernel/power/swap.c).
impl Hib {
    ghost use Rattle.hib_core.specs.declared.hib.Stage.TheVariants as stage;
    ghost use Rattle.hib_core.specs.Ready.{CanStep};
    ghost use Rattle.image_write.specs.Writing.{Writing};
    ghost use Rattle.hib_core.specs.Stepped.{HasStepped};

    /// Writes the next page or map.
    pub(crate) fn write_next<D: Disk>(
        &mut self,
        machine: &Machine,
        frames: &mut Frames,
        runs: &mut FreeRuns,
        disk: &mut D,
    ) -> Reply
        requires ready { CanStep machine.now frames.old runs.old self.old }
        requires blocks { D.block_count disk.old ≡ machine.now.blocks }
        requires at { (saving : Saving) × (writer : Writing) × (self.old.stage ≡ stage.Write saving writer) }
        ensures stepped { HasStepped machine.now frames.old self.old machine.now frames.new runs.new self.new result
            (D.content disk.old) (D.content disk.new) }
        ensures called { Called D.Disk OneCall (TellsNewFault result) disk.old disk.new }
    {
        let Stage::Write(saving, writer) = &mut self.stage else {
            unreachable!()
        };
        match write_step(writer, &self.snapshot, frames, runs, disk) {
            WriteStep::More { .. } => {
                *saving = saving.after_step();
                saving.more()
            }
            WriteStep::Done => {
                let saving = saving.after_step();
                self.stage = Stage::Sync(saving);
                saving.more()
            }
            WriteStep::Fault => {
                self.give_up(machine, frames, runs);
                Reply::WriteFault { left: Left::Same }
            }
        }
    }

    /// Syncs the pages and maps, so that they are on the disk before the header block is marked.
    pub(crate) fn sync_pages<D: Disk>(
        &mut self,
        saving: Saving,
        machine: &Machine,
        frames: &mut Frames,
        runs: &mut FreeRuns,
        disk: &mut D,
    ) -> Reply
        requires ready { CanStep machine.now frames.old runs.old self.old }
        requires blocks { D.block_count disk.old ≡ machine.now.blocks }
        requires at { self.old.stage ≡ stage.Sync saving }
        ensures stepped { HasStepped machine.now frames.old self.old machine.now frames.new runs.new self.new result
            (D.content disk.old) (D.content disk.new) }
        ensures called { Called D.Disk OneCall (TellsNewFault result) disk.old disk.new }
    {
        match disk.sync() {
            Ok(()) => {
                let saving = saving.after_step();
                self.stage = Stage::Read(saving);
                saving.more()
            }
            Err(Failed) => {
                self.give_up(machine, frames, runs);
                Reply::SyncFault { left: Left::Same }
            }
        }
    }

    /// Reads the header block, which must still be that of an unmarked area.
    pub(crate) fn read_header<D: Disk>(
        &mut self,
        saving: Saving,
        machine: &Machine,
        frames: &mut Frames,
        runs: &mut FreeRuns,
        disk: &mut D,
    ) -> Reply
        requires ready { CanStep machine.now frames.old runs.old self.old }
        requires blocks { D.block_count disk.old ≡ machine.now.blocks }
        requires at { self.old.stage ≡ stage.Read saving }
        ensures stepped { HasStepped machine.now frames.old self.old machine.now frames.new runs.new self.new result
            (D.content disk.old) (D.content disk.new) }
        ensures called { Called D.Disk OneCall (TellsNewFault result) disk.old disk.new }
    {
        let block = machine.hw.extents().block(0);
        let mut header = Page::zero();
        match disk.read(block as u32, &mut header) {
            Ok(()) => {}
            Err(Failed) => {
                self.give_up(machine, frames, runs);
                return Reply::ReadFault { left: Left::Same };
            }
        }
        match not_swap(&header) {
            None => {
                let saving = saving.after_step();
                self.stage = Stage::Mark(saving, header);
                saving.more()
            }
            Some(why) => {
                self.give_up(machine, frames, runs);
                Reply::NoSwap { why }
            }
        }
    }

    /// Ends the hibernation: gives the image's slots back, and the machine runs.
    pub(crate) fn give_up(&mut self, machine: &Machine, frames: &mut Frames, runs: &mut FreeRuns)
        requires table { LiesIn frames.old (slot_table_of machine.now.hw) }
        requires matches { Matches frames.old (slot_table_of machine.now.hw) runs.old }
        ensures hib { self.new ≡ record self.old { stage = stage.Idle } }
        ensures given { frames.new ≡ seen_frames machine.now.hw frames.old }
        ensures pages { All IsPage frames.old }
        ensures size { length frames.new ≡ length frames.old }
        ensures matches { Matches frames.new (slot_table_of machine.now.hw) runs.new }
    {
        frames.are_pages();
        slot_table(&machine.hw).give_image(frames, runs);
        self.stage = Stage::Idle;
    }
}

/// Makes a step of the writer with the snapshot's sets.
fn write_step<D: Disk>(
    writer: &mut Writer,
    snapshot: &Snapshot,
    frames: &mut Frames,
    runs: &mut FreeRuns,
    disk: &mut D,
) -> WriteStep
    requires slots { HasSlots frames.old writer.old.table runs.old }
    requires ready { IsReady (D.block_count disk.old) frames.old writer.old }
    requires sets { AreOfImage writer.old.info snapshot.now.origs snapshot.now.copies snapshot.now.zeros }
    requires copies { All (λ p. p < length frames.old) snapshot.now.copies }
    requires reading { HasReadCopies snapshot.now.origs snapshot.now.copies snapshot.now.zeros writer.old }
    ensures done { result ≡ WriteStep.Done → writer.old.written + 1 ≡ writes_of writer.old.info }
    ensures made { Succeeds result →
        Writes Makes frames.old frames.new snapshot.now writer.old writer.new (D.content disk.old)
        (D.content disk.new) }
    ensures failed { result ≡ WriteStep.Fault →
        Writes FailsToMake frames.old frames.new snapshot.now writer.old writer.new (D.content disk.old)
        (D.content disk.new) }
    ensures writer { Advances (ReadsOn snapshot.now.origs snapshot.now.copies snapshot.now.zeros result) result
        frames.old frames.new writer.old writer.new }
    ensures pages { All IsPage frames.old }
    ensures kept { KeepsSlots writer.old.table frames.old frames.new runs.old runs.new }
    ensures called { Called D.Disk OneCall (result ≡ WriteStep.Fault) disk.old disk.new }
{
    frames.are_pages();
    let sets = Sets {
        origs: snapshot.origs(),
        copies: snapshot.copies(),
        zeros: snapshot.zeros(),
    };
    writer.step(frames, runs, disk, &sets)
}

/// Returns why a header block isn't that of a version 1 area, if it isn't.
fn not_swap(header: &Page) -> Option<NoSwap>
    ensures { result ≡ kind_fault (area_kind header.now) }
{
    match AreaKind::read(header) {
        AreaKind::Image(_) => Some(NoSwap::Image),
        AreaKind::Old => Some(NoSwap::Old),
        AreaKind::Other { sig } => Some(NoSwap::Signature { sig }),
        AreaKind::BadArea { why } => Some(NoSwap::from(why)),
        AreaKind::Swap(_) => None,
    }
}
