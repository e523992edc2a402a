ghost use Rattle.std.specs.Prelude.{◌≡◌, ◌≤◌, ℕ, [], Option, IfOk, OnErr};
ghost use Rattle.definitions.specs.Disk.{Content};
ghost use Rattle.image_pages.specs.Numbered.{HasNumbered};
ghost use Rattle.image_check.specs.Told.{Told};
ghost use Rattle.image_machine.specs.Begins.{Begins, Marks};
ghost use Rattle.image_machine.specs.Headings.{IsMarkedBlock};

use crate::Heading;
use crate::dump::headed::heading_of;
use image_check::{Finding, Report, mark_in};
use image_format::{AreaKind, Mark};
use image_pages::frames::Numbers;
use image_pages::{Opened, Reader};
use page_core::{NoMemory, Page};
use sector_disk::Disk;
use std::alloc::Global;

/// What is known of an image before its numbers are read.
#[derive(Drop)]
pub(crate) enum Begun {
    NoImage,
    /// The image has a fault, which was reported.
    Refused,
    /// Without its mark, the header block isn't that of a version 1 area.
    NoArea,
    Open(Heading, Numbers),
}

/// What a header block says of an image.
#[derive(Drop)]
pub(crate) enum Marked {
    NoImage,
    /// The header block couldn't be read, which was reported.
    Refused,
    Block(Page, Mark),
}

/// Opens the image of the area whose header lies in block `header`.
#[inline(never)]
pub(crate) fn begin<D: Disk, R: Report>(
    alloc: Global,
    disk: &mut D,
    header: u32,
    report: &mut R,
) -> Result<Begun, NoMemory>
    ensures begins { IfOk result (Begins (D.content disk.old) (D.block_count disk.old) header
        (D.faults disk.old) (D.faults disk.new) (R.told report.old) (R.told report.new)) }
    ensures untold { OnErr result (R.told report.new ≡ R.told report.old) }
    ensures content { D.content disk.new ≡ D.content disk.old }
    ensures faults { D.faults disk.old ≤ D.faults disk.new }
    ensures orders { D.orders disk.new ≡ D.orders disk.old }
    ensures blocks { D.block_count disk.new ≡ D.block_count disk.old }
{
    let (block, mark) = match marked_block(disk, header, report) {
        Marked::NoImage => return Ok(Begun::NoImage),
        Marked::Refused => return Ok(Begun::Refused),
        Marked::Block(block, mark) => (block, mark),
    };
    match Numbers::open(alloc, disk, header, report)? {
        Opened::NoImage => Ok(Begun::NoImage),
        Opened::Refused => Ok(Begun::Refused),
        Opened::Open(numbers) => Ok(opened(&block, &mark, numbers)),
    }
}

/// Returns an image of which no number was read yet, given its header block.
#[inline(never)]
fn opened(block: &Page, mark: &Mark, numbers: Numbers) -> Begun
    ensures { (content : Option Content) (blocks header before now : ℕ) (told then : Told) → then ≡ told →
        IsMarkedBlock content header block.now mark.now → HasNumbered content blocks header numbers [] →
        Begins content blocks header before now told then result }
{
    match heading_of(block, mark, &numbers.info()) {
        Some(heading) => Begun::Open(heading, numbers),
        None => Begun::NoArea,
    }
}

/// Returns the header block, if it has the mark of an image.
fn marked_block<D: Disk, R: Report>(disk: &mut D, header: u32, report: &mut R) -> Marked
    ensures marks { Marks (D.content disk.old) (D.block_count disk.old) header
        (D.faults disk.old) (D.faults disk.new) (R.told report.old) (R.told report.new) result }
    ensures content { D.content disk.new ≡ D.content disk.old }
    ensures faults { D.faults disk.old ≤ D.faults disk.new }
    ensures orders { D.orders disk.new ≡ D.orders disk.old }
    ensures blocks { D.block_count disk.new ≡ D.block_count disk.old }
{
    if header >= disk.blocks() {
        return Marked::NoImage;
    }
    let mut block = Page::zero();
    if disk.read(header, &mut block).is_err() {
        report.tell(Finding::HeaderUnread(header));
        return Marked::Refused;
    }
    match mark_in(AreaKind::read(&block)) {
        Some(mark) => Marked::Block(block, mark),
        None => Marked::NoImage,
    }
}
