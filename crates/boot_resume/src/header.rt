//! The header block of a marked area.
ghost use Rattle.std.specs.Prelude.{◌≡◌, IfOk, None, Some};
ghost use Rattle.image_format.specs.AreaKind.{mark_of};
ghost use Rattle.boot_resume.specs.Marks.{mark_by, mark_within};
ghost use Rattle.boot_resume.specs.Memory.{Tests};
ghost use Rattle.boot_resume.specs.OnDisk.{format_by, hardware_cause, header_cause, mode_cause};

use crate::cause::Cause;
use crate::machine::Machine;
use image_format::{AreaKind, Mark, SF_HW_SIG, SF_NOCOMPRESS_MODE, SF_SKIPS_ZEROS};
use page_core::{Format, Page};

/// Returns the mark of a header block, if a resume can read its image.
pub(crate) fn read_mark(page: &Page) -> Result<Mark, Cause>
    ensures tests { Tests (header_cause page.now) result }
    ensures mark { IfOk result (λ mark. mark ≡ mark_of page.now) }
{
    match mark_within(page) {
        None => Err(Cause::NoImage),
        Some(mark) => check_mode(mark),
    }
}

/// Passes the mark on if the image isn't compressed.
fn check_mode(mark: Mark) -> Result<Mark, Cause>
    ensures tests { Tests (mode_cause mark) result }
    ensures mark { IfOk result (λ m. m ≡ mark) }
{
    if mark.flags & SF_NOCOMPRESS_MODE == 0 {
        return Err(Cause::Compressed { flags: mark.flags });
    }
    Ok(mark)
}

#[tactic(auto, unfolding(image_format::specs::AreaKind::area_kind))]
fn mark_within(page: &Page) -> Option<Mark>
    ensures { result ≡ mark_by page.now }
{
    mark_of_kind(AreaKind::read(page))
}

fn mark_of_kind(kind: AreaKind) -> Option<Mark>
    ensures { result ≡ mark_within kind }
{
    match kind {
        AreaKind::Image(mark) => Some(mark),
        AreaKind::Old => None,
        AreaKind::Other { .. } => None,
        AreaKind::BadArea { .. } => None,
        AreaKind::Swap(_) => None,
    }
}

/// Checks that the hardware signature is the machine's, if the mark carries one.
pub(crate) fn check_hardware(machine: &Machine, mark: &Mark) -> Result<(), Cause>
    ensures { Tests (hardware_cause machine.now mark.now) result }
{
    let own = machine.hardware_signature();
    if mark.flags & SF_HW_SIG != 0 && mark.hw_sig != own {
        return Err(Cause::HwMismatch {
            image: mark.hw_sig,
            own,
        });
    }
    Ok(())
}

/// Returns how the image stores its pages of zeros.
pub(crate) fn format_of(mark: &Mark) -> Format
    ensures { result ≡ format_by mark.now.flags }
{
    if mark.flags & SF_SKIPS_ZEROS != 0 {
        Format::SkipZeros
    } else {
        Format::Plain
    }
}
