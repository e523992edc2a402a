ghost use Rattle.std.specs.Prelude.{◌≡◌, length, Some, None, IfOk, MatchResult};
ghost use Rattle.definitions.specs.Disk.{DiskImage};
ghost use Rattle.definitions.specs.SwapHeader.{taken_back};
ghost use Rattle.definitions.specs.Zones.{top};
ghost use Rattle.image_format.specs.AreaKind.{area_kind};
ghost use Rattle.image_format.specs.declared.signature.area.AreaKind.TheVariants.{Swap};
ghost use Rattle.plain_machine.specs.Chain.{header_of, blocks_of, Marked};
ghost use Rattle.plain_machine.specs.Trace.{tables_cause};
ghost use Rattle.plain_machine.specs.UsableArea.{fit_fault};
ghost use Rattle.plain_machine.specs.declared.reply.Reply.TheVariants as reply;
ghost use Rattle.machine.specs.Running.{AreReserved};

use crate::Load;
use crate::load::Stage;
use frame_arena::Frames;
use image_format::{Area, AreaKind, take_back};
use machine::{Flight, Hardware, Machine, has_bad_slots, slot_table, tables_fit, usable};
use page_core::Page;
use plain_machine::{Held, Loader, Reply};
use swap_slots::FreeRuns;

// The end of a resume (swsusp_arch_resume; hibernation_restore, kernel/power/hibernate.c).
impl Load {
    ghost use Rattle.resume_core.specs.declared.load.Stage.TheVariants as stage;
    ghost use Rattle.resume_core.specs.Ready.{CanStep, reads_at};
    ghost use Rattle.resume_core.specs.declared.load.OpenChain.{OpenChain};
    ghost use Rattle.resume_core.specs.StepsLeft.{loading_steps_left};
    ghost use Rattle.resume_core.specs.Row.{EndsOn};
    ghost use Rattle.resume_core.specs.Stepped.{HasProceeded};

    /// Brings the pages home. After a scripted loader the machine runs, if the tables fit it and the area; after a
    /// dump's loader it is off. No page is missing here: the reader has checked the stream's number of pages against
    /// the numbers that it names.
    pub(crate) fn end(
        &mut self,
        machine: &mut Machine,
        frames: &mut Frames,
        runs: &mut FreeRuns,
    ) -> Reply
        requires ready { CanStep machine.old frames.old runs.old self.old }
        requires stage { reads_at self.old.stage }
        ensures row { (chain : OpenChain) → self.old.stage ≡ stage.Read chain →
            EndsOn machine.old frames.old self.old chain machine.new frames.new self.new result }
        ensures proceeded { HasProceeded machine.old self.old machine.new frames.new runs.new self.new result }
        ensures ended { loading_steps_left self.new ≡ 0 }
    {
        let saved = self.origs.len();
        self.waiting.finish(frames, &self.zeros);
        frames.are_pages();
        match &self.stage {
            Stage::Read(chain) => match self.loader {
                Loader::Table => self.stop(Reply::Resumed { n: saved }),
                Loader::Ranges(_) => {
                    match restored_area(&machine.hw, machine.blocks, frames, &chain.header) {
                        Ok(area) => {
                            machine.area = Ok(area);
                            machine.held = Held::No;
                            machine.flights = [Flight::Nothing; 64];
                            runs.rebuild(frames, &slot_table(&machine.hw));
                            self.stage = Stage::Runs;
                            Reply::Resumed { n: saved }
                        }
                        Err(frame) => self.stop(Reply::BadTables { frame }),
                    }
                }
            },
            _ => unreachable!(),
        }
    }
}

/// Returns the area of the header block with its mark taken back, if the restored tables fit the machine and the area.
/// Otherwise returns a page frame of a table at fault.
fn restored_area(hw: &Hardware, blocks: u32, frames: &Frames, header: &Page) -> Result<Area, u32>
    requires { length frames.now ≡ top hw.now.zones }
    ensures fits { IfOk result (λ area. fit_fault hw.now blocks area ≡ None) }
    ensures reserved { IfOk result (λ area. AreReserved hw.now frames.now) }
    ensures kind { IfOk result (λ area. area_kind (taken_back header.now) ≡ Swap area) }
    ensures tables { (v : DiskImage) → header.now ≡ header_of hw.now v → blocks ≡ blocks_of v → Marked hw.now v →
        MatchResult result (λ area. tables_cause hw.now v frames.now ≡ None)
        (λ f. tables_cause hw.now v frames.now ≡ Some (reply.BadTables f)) }
{
    tables_fit(frames, hw)?;
    match usable(hw, blocks, &AreaKind::read(&take_back(header))) {
        Ok(area) => {
            if has_bad_slots(frames, hw, &area) {
                Ok(area)
            } else {
                Err(hw.slot_table())
            }
        }
        Err(_) => Err(hw.slot_table()),
    }
}
