ghost use Rattle.std.specs.Prelude.{◌≡◌, IfOk};
ghost use Rattle.definitions.specs.Disk.{Content, as_it_reads};
ghost use Rattle.protocol_laws.specs.Rows.{TellsNewFault};
ghost use Rattle.resume_core.specs.Loading.{IsIdle};
ghost use Rattle.sector_disk.specs.Called.{Called, AtMostOneCall};

use crate::Phase;
use frame_arena::Frames;
use frame_sets::Bitmap;
use image_format::Mark;
use image_read::Reader;
use machine::{Hardware, Machine};
use page_core::{NoMemory, Page};
use placement::Waiting;
use plain_machine::{IdentCheck, Loader, Reply};
use sector_disk::Disk;
use std::alloc::Global;
use swap_slots::FreeRuns;
use unmark::Unmark;

/// An image whose chain is read.
#[derive(Drop)]
pub(crate) struct OpenChain {
    /// The header block as it was found.
    pub(crate) header: Page,
    pub(crate) reader: Reader,
    /// The number of steps made so far.
    pub(crate) done: u32,
}

/// The step to make next, with the data that it needs.
#[derive(Drop)]
pub(crate) enum Stage {
    /// No step: the machine is off.
    Rest,
    /// No step: the image was resumed, and the machine runs.
    Runs,
    /// The first sync of the disk.
    Sync,
    /// The read of the header block.
    Find,
    /// A call that takes the mark back, which says this: the write of the header block that was found, or the sync after
    /// it. No image exists from then on.
    Back(Unmark, Mark),
    /// The read of a map, the info page or a number page.
    List(OpenChain),
    /// The read of a map or a saved page.
    Read(OpenChain),
}

/// A resume, or none. All its memory is allocated when it is created.
#[derive(Drop)]
pub struct Load {
    /// The page frames that the image names; `zeros` has those of them without a data page.
    pub(crate) origs: Bitmap,
    pub(crate) zeros: Bitmap,
    pub(crate) waiting: Waiting,
    /// The last block of the chain that was read, if it wasn't read into a page frame.
    pub(crate) page: Page,
    pub(crate) stage: Stage,
    pub(crate) loader: Loader,
    pub(crate) check: IdentCheck,
}

impl Load {
    ghost use Rattle.resume_core.specs.declared.load.Stage.TheVariants as stage;
    ghost use Rattle.resume_core.specs.Loading.{phase_of, FindsMark};
    ghost use Rattle.resume_core.specs.Ready.{CanStep, IsBusy};
    ghost use Rattle.resume_core.specs.Stepped.{HasStepped};

    /// Creates an idle `Load` with enough memory for every resume of this machine.
    pub fn create(alloc: Global, hw: &Hardware) -> Result<Load, NoMemory>
        ensures { IfOk result (IsIdle hw.now.zones) }
    {
        Ok(Load {
            origs: Bitmap::create(alloc, hw.zones())?,
            zeros: Bitmap::create(alloc, hw.zones())?,
            waiting: Waiting::create(alloc, hw.zones())?,
            page: Page::zero(),
            stage: Stage::Rest,
            loader: Loader::Table,
            check: IdentCheck::Skip,
        })
    }

    /// Returns whether a step is left, and what the machine does if none is.
    pub fn phase(&self) -> Phase
        ensures { result ≡ phase_of self.now }
    {
        match &self.stage {
            Stage::Rest => Phase::Off,
            Stage::Runs => Phase::Runs,
            Stage::Sync | Stage::Find | Stage::Back(..) | Stage::List(_) | Stage::Read(_) =>
                Phase::UnderWay,
        }
    }

    /// Makes the next step, with at most one call of the disk.
    pub fn step<D: Disk>(
        &mut self,
        machine: &mut Machine,
        frames: &mut Frames,
        runs: &mut FreeRuns,
        disk: &mut D,
    ) -> Reply
        requires ready { CanStep machine.old frames.old runs.old self.old }
        requires blocks { D.block_count disk.old ≡ machine.old.blocks }
        requires busy { IsBusy self.old }
        ensures found { self.old.stage ≡ stage.Find → (c : Content) → D.content disk.old ≡ Some c →
            FindsMark machine.old.hw result (as_it_reads c) }
        ensures stepped { HasStepped machine.old frames.old self.old machine.new frames.new runs.new self.new result
            (D.content disk.old) (D.content disk.new) }
        ensures called { Called D.Disk AtMostOneCall (TellsNewFault result) disk.old disk.new }
    {
        match &self.stage {
            Stage::Sync => self.sync_first(machine, frames, runs, disk),
            Stage::Find => self.find(machine, frames, runs, disk),
            Stage::Back(..) => self.take_back(machine, frames, runs, disk),
            Stage::List(_) => self.list_next(machine, frames, runs, disk),
            Stage::Read(_) => self.read_next(machine, frames, runs, disk),
            Stage::Rest | Stage::Runs => unreachable!(),
        }
    }
}
