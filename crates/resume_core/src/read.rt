ghost use Rattle.std.specs.Prelude.{◌≡◌, ◌<◌, ◌≤◌, ◌+◌, true, length};
ghost use Rattle.definitions.specs.Bytes.{IsPage};
ghost use Rattle.image_read.specs.declared.reader.ReadStep.TheVariants as read_step;
ghost use Rattle.protocol_laws.specs.Rows.{TellsNewFault};
ghost use Rattle.sector_disk.specs.Called.{Called, AtMostOneCall};

use crate::Load;
use crate::list::expected_of;
use crate::load::Stage;
use frame_arena::Frames;
use image_read::ReadStep;
use machine::Machine;
use page_core::Page;
use placement::Waiting;
use plain_machine::{Left, Reply};
use sector_disk::Disk;
use swap_slots::FreeRuns;

// The reads of the saved pages (snapshot_write_next, kernel/power/snapshot.c).
impl Load {
    ghost use Rattle.resume_core.specs.declared.load.Stage.TheVariants as stage;
    ghost use Rattle.resume_core.specs.Ready.{CanStep, reads_at};
    ghost use Rattle.resume_core.specs.declared.load.OpenChain.{OpenChain};
    ghost use Rattle.resume_core.specs.Placing.{CanReadInPlace, HasReadInPlace};
    ghost use Rattle.image_read.specs.Reading.{HasReadAll, places_left};
    ghost use Rattle.resume_core.specs.StepsLeft.{loading_steps_left};
    ghost use Rattle.resume_core.specs.Row.{ReadsOn};
    ghost use Rattle.resume_core.specs.Stepped.{HasStepped, HasProceeded};

    /// Reads the next map or saved page.
    pub(crate) fn read_next<D: Disk>(
        &mut self,
        machine: &mut Machine,
        frames: &mut Frames,
        runs: &mut FreeRuns,
        disk: &mut D,
    ) -> Reply
        requires ready { CanStep machine.old frames.old runs.old self.old }
        requires blocks { D.block_count disk.old ≡ machine.old.blocks }
        requires stage { reads_at self.old.stage }
        ensures stepped { HasStepped machine.old frames.old self.old machine.new frames.new runs.new self.new result
            (D.content disk.old) (D.content disk.new) }
        ensures called { Called D.Disk AtMostOneCall (TellsNewFault result) disk.old disk.new }
    {
        match self.read_in_place(machine, frames, disk) {
            ReadStep::Fault => self.stop(Reply::ReadFault { left: Left::Gone }),
            ReadStep::Refused(cause) => self.stop(Reply::from(cause)),
            ReadStep::Page { .. } => {
                count_page(&mut self.waiting);
                self.read_on(machine, frames, runs)
            }
            ReadStep::More { .. } | ReadStep::Done => self.read_on(machine, frames, runs),
        }
    }

    /// Reads the chain's next block straight into the page frame where the next page waits, even if the block is a map:
    /// that page frame is free to the loader. If all pages wait already, reads the block into `self.page`.
    fn read_in_place<D: Disk>(
        &mut self,
        machine: &Machine,
        frames: &mut Frames,
        disk: &mut D,
    ) -> ReadStep
        requires ready { CanReadInPlace machine.now frames.old self.old }
        requires blocks { D.block_count disk.old ≡ machine.now.blocks }
        ensures read { HasReadInPlace machine.now frames.old self.old (D.content disk.old) result frames.new self.new }
        ensures load { self.new ≡ record self.old {
          stage = self.new.stage;
          origs = self.new.origs;
          zeros = self.new.zeros;
          page = self.new.page;
        } }
        ensures origs { self.new.origs.zones ≡ self.old.origs.zones }
        ensures zeros { self.new.zeros.zones ≡ self.old.zeros.zones }
        ensures size { length frames.new ≡ length frames.old }
        ensures called { Called D.Disk AtMostOneCall (result ≡ read_step.Fault) disk.old disk.new }
        ensures content { D.content disk.new ≡ D.content disk.old }
    {
        let expected = expected_of(machine, self.check);
        match &mut self.stage {
            Stage::Read(chain) => match self.waiting.next() {
                Some(p) => {
                    let page = frames.page_mut(p);
                    let step = chain
                        .reader
                        .step(disk, &expected, &mut self.origs, &mut self.zeros, page);
                    page.is_page();
                    step
                }
                None => chain.reader.step(
                    disk,
                    &expected,
                    &mut self.origs,
                    &mut self.zeros,
                    &mut self.page,
                ),
            },
            _ => unreachable!(),
        }
    }

    /// Continues the resume, or ends it after the last page.
    pub(crate) fn read_on(
        &mut self,
        machine: &mut Machine,
        frames: &mut Frames,
        runs: &mut FreeRuns,
    ) -> Reply
        requires ready { CanStep machine.old frames.old runs.old self.old }
        requires stage { reads_at self.old.stage }
        ensures row { (chain : OpenChain) → self.old.stage ≡ stage.Read chain →
            ReadsOn machine.old frames.old self.old chain machine.new frames.new self.new result }
        ensures proceeded { HasProceeded machine.old self.old machine.new frames.new runs.new self.new result }
        ensures left { (chain : OpenChain) → self.old.stage ≡ stage.Read chain →
            loading_steps_left self.new ≤ places_left chain.reader + 1 }
        ensures ended { (chain : OpenChain) → self.old.stage ≡ stage.Read chain → HasReadAll chain.reader →
            loading_steps_left self.new ≡ 0 }
    {
        match &mut self.stage {
            Stage::Read(chain) => {
                if chain.reader.over() {
                    self.end(machine, frames, runs)
                } else {
                    chain.go_on()
                }
            }
            _ => unreachable!(),
        }
    }
}

/// Counts the page that was read. There is a place for each page that the numbers name.
fn count_page(waiting: &mut Waiting)
    requires { waiting.old.placement.ready ≡ true }
    ensures counted { waiting.old.loaded < length waiting.old.originals →
        waiting.new ≡ record waiting.old { loaded = waiting.old.loaded + 1 } }
    ensures waiting { waiting.new ≡ record waiting.old { loaded = waiting.new.loaded } }
{
    if waiting.left() > 0 {
        waiting.placed();
    }
}
