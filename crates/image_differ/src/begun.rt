ghost use Rattle.std.specs.Prelude.{◌≡◌, [], IfOk, OnErr};
ghost use Rattle.image_pages.specs.Given.{HasGiven};
ghost use Rattle.image_differ.specs.Compares.{Begins};
ghost use Rattle.image_differ.specs.Marks.{IsMarkedBy, Marks};
ghost use Rattle.image_differ.specs.Sides.{OnlyReads, SideView, side_view};

use crate::reading::{Place, Reading};
use crate::{Heading, Side};
use image_check::{Finding, Report, mark_in};
use image_format::{AreaKind, Mark};
use image_pages::frames::Frames;
use image_pages::{Opened, Reader};
use page_core::{NoMemory, Page};
use sector_disk::Disk;
use std::alloc::Global;

/// The result of opening one of two images.
#[derive(Drop)]
pub(crate) enum Begun {
    NoImage,
    /// The image has a fault, which was reported.
    Refused,
    Open(Heading, Reading),
}

/// What a header block says of an image.
#[derive(Clone, Copy)]
pub(crate) enum Marked {
    NoImage,
    /// The header block couldn't be read, which was reported.
    Refused,
    Mark(Mark),
}

/// Opens one of two images.
pub(crate) fn begin<D: Disk, R: Report>(
    alloc: Global,
    side: &mut Side<D, R>,
) -> Result<Begun, NoMemory>
    ensures begins { IfOk result (Begins
        (side_view D.Disk R.Report side.old) (side_view D.Disk R.Report side.new)) }
    ensures untold { OnErr result (R.told side.new.report ≡ R.told side.old.report) }
    ensures kept { OnlyReads (side_view D.Disk R.Report side.old) (side_view D.Disk R.Report side.new) }
{
    let mark = match mark_of(side) {
        Marked::NoImage => return Ok(Begun::NoImage),
        Marked::Refused => return Ok(Begun::Refused),
        Marked::Mark(mark) => mark,
    };
    match Frames::open(alloc, &mut side.disk, side.header, &mut side.report)? {
        Opened::NoImage => Ok(Begun::NoImage),
        Opened::Refused => Ok(Begun::Refused),
        Opened::Open(frames) => Ok(opened(mark, frames)),
    }
}

/// Returns an image of which no page frame was read yet.
fn opened(mark: Mark, frames: Frames) -> Begun
    ensures { (old new : SideView) → new.told ≡ old.told → IsMarkedBy old mark →
        HasGiven old.content old.blocks old.header frames [] → Begins old new result }
{
    let heading = Heading {
        flags: mark.flags,
        hw_sig: mark.hw_sig,
        info: frames.info(),
    };
    let reading = Reading {
        frames,
        place: Place::Unread,
        page: Page::zero(),
    };
    Begun::Open(heading, reading)
}

/// Returns the mark in the header block.
fn mark_of<D: Disk, R: Report>(side: &mut Side<D, R>) -> Marked
    ensures marks { Marks
        (side_view D.Disk R.Report side.old) (side_view D.Disk R.Report side.new) result }
    ensures kept { OnlyReads (side_view D.Disk R.Report side.old) (side_view D.Disk R.Report side.new) }
{
    let header = side.header;
    if header >= side.disk.blocks() {
        return Marked::NoImage;
    }
    let mut page = Page::zero();
    if side.disk.read(header, &mut page).is_err() {
        side.report.tell(Finding::HeaderUnread(header));
        return Marked::Refused;
    }
    match mark_in(AreaKind::read(&page)) {
        Some(mark) => Marked::Mark(mark),
        None => Marked::NoImage,
    }
}
