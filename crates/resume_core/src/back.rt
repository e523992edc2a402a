ghost use Rattle.std.specs.Prelude.{◌≡◌, false, [], IfOk, IfErr, if◌then◌else◌};
ghost use Rattle.image_read.specs.Reading.{IsReady};
ghost use Rattle.plain_machine.specs.Trace.{is_set};
ghost use Rattle.page_core.specs.declared.format.Format.TheVariants.{Plain, SkipZeros};
ghost use Rattle.plain_machine.specs.Shows.{rests};
ghost use Rattle.plain_machine.specs.declared.event.Loader.{Loader};
ghost use Rattle.resume_core.specs.Header.{Opens, signature_fault};
ghost use Rattle.resume_core.specs.Loading.{activity_told};
ghost use Rattle.protocol_laws.specs.Rows.{TellsNewFault, is_idle};
ghost use Rattle.sector_disk.specs.Called.{Called, AtMostOneCall};

use crate::Load;
use crate::load::{OpenChain, Stage};
use frame_arena::Frames;
use image_format::{Mark, SF_HW_SIG, SF_SKIPS_ZEROS};
use image_read::Reader;
use machine::{Hardware, Machine};
use page_core::Format;
use plain_machine::{Left, Reply};
use sector_disk::Disk;
use std::mem::replace;
use swap_slots::FreeRuns;
use unmark::UnmarkStep;

// Taking the mark back, before anything else of the image is read (swsusp_check, kernel/power/swap.c).
impl Load {
    ghost use Rattle.resume_core.specs.Ready.{CanStep, takes_back_at};
    ghost use Rattle.resume_core.specs.Stepped.{HasStepped};

    /// Makes the next call that takes the mark back. After the sync no image exists, and the chain is opened, which must
    /// begin in the area.
    pub(crate) fn take_back<D: Disk>(
        &mut self,
        machine: &Machine,
        frames: &Frames,
        runs: &FreeRuns,
        disk: &mut D,
    ) -> Reply
        requires ready { CanStep machine.now frames.now runs.now self.old }
        requires blocks { D.block_count disk.old ≡ machine.now.blocks }
        requires stage { takes_back_at self.old.stage }
        ensures stepped { HasStepped machine.now frames.now self.old machine.now frames.now runs.now self.new result
            (D.content disk.old) (D.content disk.new) }
        ensures called { Called D.Disk AtMostOneCall (TellsNewFault result) disk.old disk.new }
    {
        let Stage::Back(unmark, mark) = &mut self.stage else {
            unreachable!()
        };
        let block = machine.hw.extents().block(0);
        match unmark.step(block as u32, disk) {
            UnmarkStep::Written => Reply::Loading { k: 3 },
            UnmarkStep::Synced => match reader_of(&machine.hw, machine.blocks, mark) {
                Ok(reader) => {
                    let Stage::Back(unmark, _) = replace(&mut self.stage, Stage::Rest) else {
                        unreachable!()
                    };
                    self.stage = Stage::List(OpenChain {
                        header: unmark.into_header(),
                        reader,
                        done: 4,
                    });
                    Reply::Loading { k: 4 }
                }
                Err(why) => self.stop(why),
            },
            UnmarkStep::WriteFault => self.stop(Reply::WriteFault { left: Left::Unsure }),
            UnmarkStep::SyncFault => self.stop(Reply::SyncFault { left: Left::Unsure }),
            UnmarkStep::Read | UnmarkStep::ReadFault => unreachable!(),
        }
    }
}

/// Returns a reader of the marked image, or refuses the image. It must have been made under the machine's hardware
/// signature, and its chain must begin in the area.
fn reader_of(hw: &Hardware, blocks: u32, mark: &Mark) -> Result<Reader, Reply>
    ensures opens { Opens hw.now blocks mark.now result }
    ensures ready { IfOk result (λ r. IsReady r [] []) }
    ensures blocks { IfOk result (λ r. r.blocks ≡ blocks) }
    ensures stops { IfErr result (λ why. TellsNewFault why → ⊥) }
    ensures rests { IfErr result (λ why. (loader : Loader) → activity_told loader why ≡ rests) }
    ensures works { IfErr result (λ why. is_idle why ≡ false) }
{
    match other_signature(hw, mark) {
        Some(why) => return Err(why),
        None => {}
    }
    match Reader::begin(mark.first, hw.extents(), mark.last, blocks, format_of(mark)) {
        Ok(reader) => Ok(reader),
        Err(cause) => Err(Reply::from(cause)),
    }
}

/// Returns why the image can't be read, if it was made under a hardware signature other than the machine's.
fn other_signature(hw: &Hardware, mark: &Mark) -> Option<Reply>
    ensures { result ≡ signature_fault hw.now mark.now }
{
    if mark.flags & SF_HW_SIG == 0 {
        return None;
    }
    if mark.hw_sig == hw.hw_sig() {
        return None;
    }
    Some(Reply::HwMismatch {
        image: mark.hw_sig,
        own: hw.hw_sig(),
    })
}

fn format_of(mark: &Mark) -> Format
    ensures { result ≡ (if is_set mark.now.flags 256 then SkipZeros else Plain) }
{
    if mark.flags & SF_SKIPS_ZEROS == 0 {
        Format::Plain
    } else {
        Format::SkipZeros
    }
}
