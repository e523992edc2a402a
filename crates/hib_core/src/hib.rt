ghost use Rattle.std.specs.Prelude.{◌≡◌, ◌<◌, ◌+◌, IfOk};
ghost use Rattle.plain_machine.specs.declared.reply.Reply.TheVariants as reply;
ghost use Rattle.hib_core.specs.Hibernation.{IsIdle};
ghost use Rattle.sector_disk.specs.Called.{Called, OneCall};

use crate::Phase;
use frame_arena::Frames;
use image_write::Writer;
use machine::{Hardware, Machine};
use page_core::{Format, NoMemory, Page};
use plain_machine::{Reply, UndoCall};
use sector_disk::Disk;
use snapshot::Snapshot;
use std::alloc::Global;
use swap_slots::FreeRuns;
use unmark::Unmark;

/// An operation that `Hib` can begin.
#[derive(Clone, Copy)]
pub enum Job {
    /// Saves memory and switches the machine off.
    Hibernate(Format),
    /// Saves memory and puts the machine to sleep with all of its memory kept.
    Suspend(Format),
    /// Takes the mark of a held image back while the machine runs.
    Settle,
}

/// What the last step of a hibernation does with the machine.
#[derive(Clone, Copy, Debug, PartialEq, Eq)]
pub(crate) enum Ending {
    SwitchesOff,
    Sleeps,
}

/// An image that is being saved.
#[derive(Clone, Copy, Debug, PartialEq, Eq)]
pub(crate) struct Saving {
    pub(crate) ending: Ending,
    /// The number of saved page frames.
    pub(crate) saved: u32,
    /// The block of the first map.
    pub(crate) first: u32,
    /// Steps made so far; `steps` is the number of steps in all.
    pub(crate) done: u32,
    pub(crate) steps: u32,
}

/// The step to make next, with the data that it needs.
#[derive(Drop)]
pub(crate) enum Stage {
    /// No step: the machine runs.
    Idle,
    /// No step: the image is on the disk, and the machine is off.
    Over,
    /// No step: the image is on the disk, and the machine sleeps.
    Asleep,
    /// The write of the next page or map.
    Write(Saving, Writer),
    /// The sync of the pages and maps.
    Sync(Saving),
    /// The read of the header block.
    Read(Saving),
    /// The write of the header block with the mark.
    Mark(Saving, Page),
    /// The sync of the mark.
    End(Saving, Page),
    /// In an undo, after a failed call: a call that takes the mark back. The header block is known, so the first one is
    /// the write.
    Undo(UndoCall, Unmark),
    /// In a settling: a call that takes the mark back.
    Settle(Unmark),
}

/// A hibernation, a settling, or neither. All its memory is allocated when it is created.
#[derive(Drop)]
pub struct Hib {
    pub(crate) snapshot: Snapshot,
    pub(crate) stage: Stage,
}

impl Saving {
    /// Returns these numbers after one more step.
    pub(crate) fn after_step(self) -> Saving
        requires { self.done < self.steps }
        ensures { result ≡ record self { done = self.done + 1 } }
    {
        Saving {
            done: self.done + 1,
            ..self
        }
    }

    /// Returns the reply to a step after which more follow.
    pub(crate) fn more(self) -> Reply
        ensures { result ≡ reply.More self.done self.steps }
    {
        Reply::More {
            k: self.done,
            of: self.steps,
        }
    }
}

impl Hib {
    ghost use Rattle.protocol_laws.specs.Rows.{TellsNewFault};
    ghost use Rattle.hib_core.specs.Hibernation.{phase_of};
    ghost use Rattle.hib_core.specs.Ready.{CanStep, IsBusy};
    ghost use Rattle.hib_core.specs.Stepped.{HasStepped};

    /// Creates an idle `Hib` with enough memory for every hibernation of this machine.
    pub fn create(alloc: Global, hw: &Hardware) -> Result<Hib, NoMemory>
        ensures { IfOk result (IsIdle hw.now.zones) }
    {
        let snapshot = Snapshot::create(alloc, hw.zones())?;
        Ok(Hib {
            snapshot,
            stage: Stage::Idle,
        })
    }

    /// Returns whether the operation has a step to make, and what the machine is if it has none.
    pub fn phase(&self) -> Phase
        ensures { result ≡ phase_of self.now }
    {
        match self.stage {
            Stage::Idle => Phase::Runs,
            Stage::Over => Phase::Off,
            Stage::Asleep => Phase::Asleep,
            Stage::Write(..)
            | Stage::Sync(_)
            | Stage::Read(_)
            | Stage::Mark(..)
            | Stage::End(..)
            | Stage::Undo(..)
            | Stage::Settle(_) => Phase::UnderWay,
        }
    }

    /// Makes the next step, with one call of the disk.
    pub fn step<D: Disk>(
        &mut self,
        machine: &mut Machine,
        frames: &mut Frames,
        runs: &mut FreeRuns,
        disk: &mut D,
    ) -> Reply
        requires ready { CanStep machine.old frames.old runs.old self.old }
        requires blocks { D.block_count disk.old ≡ machine.old.blocks }
        requires busy { IsBusy self.old }
        ensures stepped { HasStepped machine.old frames.old self.old machine.new frames.new runs.new self.new result
            (D.content disk.old) (D.content disk.new) }
        ensures called { Called D.Disk OneCall (TellsNewFault result) disk.old disk.new }
    {
        match self.stage {
            Stage::Write(..) => self.write_next(machine, frames, runs, disk),
            Stage::Sync(saving) => self.sync_pages(saving, machine, frames, runs, disk),
            Stage::Read(saving) => self.read_header(saving, machine, frames, runs, disk),
            Stage::Mark(..) => self.write_mark(machine, frames, runs, disk),
            Stage::End(..) => self.sync_mark(machine, frames, runs, disk),
            Stage::Undo(..) => self.undo_mark(machine, frames, runs, disk),
            Stage::Settle(_) => self.settle_on(machine, frames, runs, disk),
            Stage::Idle | Stage::Over | Stage::Asleep => unreachable!(),
        }
    }
}
