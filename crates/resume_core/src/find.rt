ghost use Rattle.std.specs.Prelude.{◌≡◌, false, None, Some, IfOk, IfErr};
ghost use Rattle.image_format.specs.AreaKind.{area_kind, mark_of};
ghost use Rattle.plain_machine.specs.Shows.{rests};
ghost use Rattle.plain_machine.specs.declared.event.Loader.{Loader};
ghost use Rattle.resume_core.specs.Header.{header_fault, mark_in};
ghost use Rattle.resume_core.specs.Loading.{activity_told};
ghost use Rattle.definitions.specs.Disk.{Content, as_it_reads};
ghost use Rattle.protocol_laws.specs.Rows.{TellsNewFault, is_idle};
ghost use Rattle.sector_disk.specs.Called.{Called, AtMostOneCall};

use crate::Load;
use crate::load::Stage;
use frame_arena::Frames;
use image_format::{AreaKind, Mark, SF_NOCOMPRESS_MODE};
use machine::Machine;
use page_core::{Failed, Page};
use plain_machine::{Left, Reply};
use sector_disk::Disk;
use swap_slots::FreeRuns;
use unmark::Unmark;

// The sync, and the read of the header block (swsusp_check, kernel/power/swap.c).
impl Load {
    ghost use Rattle.resume_core.specs.declared.load.Stage.TheVariants as stage;
    ghost use Rattle.resume_core.specs.Loading.{FindsMark};
    ghost use Rattle.resume_core.specs.Ready.{CanStep};
    ghost use Rattle.resume_core.specs.Stepped.{HasStepped};

    /// Syncs the disk, which has a single possible content afterwards.
    pub(crate) fn sync_first<D: Disk>(
        &mut self,
        machine: &Machine,
        frames: &Frames,
        runs: &FreeRuns,
        disk: &mut D,
    ) -> Reply
        requires ready { CanStep machine.now frames.now runs.now self.old }
        requires blocks { D.block_count disk.old ≡ machine.now.blocks }
        requires stage { self.old.stage ≡ stage.Sync }
        ensures stepped { HasStepped machine.now frames.now self.old machine.now frames.now runs.now self.new result
            (D.content disk.old) (D.content disk.new) }
        ensures called { Called D.Disk AtMostOneCall (TellsNewFault result) disk.old disk.new }
    {
        match disk.sync() {
            Ok(()) => {
                self.stage = Stage::Find;
                Reply::Loading { k: 1 }
            }
            Err(Failed) => self.stop(Reply::SyncFault { left: Left::Same }),
        }
    }

    /// Reads the header block, which must carry the mark of an image that isn't compressed. If the block lies past the
    /// end of the disk, it counts as zeros and isn't read.
    pub(crate) fn find<D: Disk>(
        &mut self,
        machine: &Machine,
        frames: &Frames,
        runs: &FreeRuns,
        disk: &mut D,
    ) -> Reply
        requires ready { CanStep machine.now frames.now runs.now self.old }
        requires blocks { D.block_count disk.old ≡ machine.now.blocks }
        requires stage { self.old.stage ≡ stage.Find }
        ensures found { (c : Content) → D.content disk.old ≡ Some c → FindsMark machine.now.hw result (as_it_reads c) }
        ensures stepped { HasStepped machine.now frames.now self.old machine.now frames.now runs.now self.new result
            (D.content disk.old) (D.content disk.new) }
        ensures called { Called D.Disk AtMostOneCall (TellsNewFault result) disk.old disk.new }
    {
        let block = machine.hw.extents().block(0);
        if block >= u64::from(machine.blocks) {
            return self.stop(Reply::NoImage);
        }
        let mut header = Page::zero();
        match disk.read(block as u32, &mut header) {
            Ok(()) => {}
            Err(Failed) => return self.stop(Reply::ReadFault { left: Left::Same }),
        }
        match found(&header) {
            Ok(mark) => {
                self.stage = Stage::Back(Unmark::of(header), mark);
                Reply::Loading { k: 2 }
            }
            Err(why) => self.stop(why),
        }
    }

    /// Ends the resume with the reply `why`. The machine is off.
    pub(crate) fn stop(&mut self, why: Reply) -> Reply
        ensures load { self.new ≡ record self.old { stage = stage.Rest } }
        ensures reply { result ≡ why }
    {
        self.stage = Stage::Rest;
        why
    }
}

/// Returns the mark of an image that can be read, or the reply that says why there is none.
fn found(header: &Page) -> Result<Mark, Reply>
    ensures found { IfOk result (λ mark. (header_fault header.now ≡ None) × (mark ≡ mark_of header.now)) }
    ensures stops { IfErr result (λ why. TellsNewFault why → ⊥) }
    ensures rests { IfErr result (λ why. (loader : Loader) → activity_told loader why ≡ rests) }
    ensures works { IfErr result (λ why. is_idle why ≡ false) }
    ensures none { IfErr result (λ why. header_fault header.now ≡ Some why) }
{
    match mark_in(header) {
        Some(mark) => {
            if mark.flags & SF_NOCOMPRESS_MODE == 0 {
                return Err(Reply::Compressed { flags: mark.flags });
            }
            Ok(mark)
        }
        None => Err(Reply::NoImage),
    }
}

/// Returns the mark of a header block that carries one.
fn mark_in(header: &Page) -> Option<Mark>
    ensures { result ≡ mark_in (area_kind header.now) }
{
    match AreaKind::read(header) {
        AreaKind::Image(mark) => Some(mark),
        AreaKind::Old => None,
        AreaKind::Other { .. } => None,
        AreaKind::BadArea { .. } => None,
        AreaKind::Swap(_) => None,
    }
}
