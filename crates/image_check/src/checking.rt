//! A whole check.
ghost use Rattle.std.specs.Prelude.{◌≡◌, ◌<◌, ◌≤◌, ◌⊎◌, ◌∷◌, ◌++◌, [], List, Option, IfOk, OnOk, OnErr, Ok};
ghost use Rattle.definitions.specs.Bytes.{IsPage};
ghost use Rattle.definitions.specs.Disk.{HasRisen};
ghost use Rattle.definitions.specs.SwapHeader.{IsMarked, flags_of, image_of};
ghost use Rattle.image_walk.specs.Names.{IsReadFrom, Name};
ghost use Rattle.image_walk.specs.Walking.{Follows};
ghost use Rattle.image_check.specs.Checked.{Finds, FindsImage, FindsNames, TellsFound, format_of, mark_in};
ghost use Rattle.image_check.specs.declared.finding.Finding.{Finding};
ghost use Rattle.image_check.specs.Header.{header_findings};
ghost use Rattle.image_check.specs.Image.{history_findings};
ghost use Rattle.image_check.specs.Told.{Tells};

use crate::entries::check_name;
use crate::header::{check_header, is_compressed, limits_of};
use crate::progress::Progress;
use crate::{Finding, Report};
use image_format::{AreaKind, Mark, SF_SKIPS_ZEROS};
use image_walk::Walker;
use page_core::{Format, NoMemory, Page};
use sector_disk::Disk;
use std::alloc::Global;

/// Whether there was an image to check.
#[derive(Clone, Copy, Debug, PartialEq, Eq)]
pub enum Outcome {
    /// The header block, if the disk has it, isn't marked.
    NoImage,
    Checked,
}

/// Checks the image of the area whose header lies in block `header`, and reports each finding in the order in which the
/// image is read. The check continues after a finding as far as the bytes allow, and reads each block once. It takes
/// memory of one bit for each block of the disk.
pub fn check<D: Disk, R: Report>(
    alloc: Global,
    disk: &mut D,
    header: u32,
    report: &mut R,
) -> Result<Outcome, NoMemory>
    ensures checked { IfOk result (λ outcome. (found : Option (List Finding)) ×
        (Finds (D.content disk.old) (D.block_count disk.old) header (D.faults disk.old) (D.faults disk.new) found
        × TellsFound found (R.told report.old) (R.told report.new) outcome)) }
    ensures refused { OnErr result (R.told report.new ≡ R.told report.old) }
    ensures content { D.content disk.new ≡ D.content disk.old }
    ensures faults { D.faults disk.old ≤ D.faults disk.new }
    ensures orders { D.orders disk.new ≡ D.orders disk.old }
    ensures blocks { D.block_count disk.new ≡ D.block_count disk.old }
{
    if header >= disk.blocks() {
        return Ok(Outcome::NoImage);
    }
    let mut page = Page::zero();
    if disk.read(header, &mut page).is_err() {
        report.tell(Finding::HeaderUnread(header));
        return Ok(Outcome::Checked);
    }
    let Some(mark) = mark_in(AreaKind::read(&page)) else {
        return Ok(Outcome::NoImage);
    };
    check_image(alloc, disk, header, &page, mark, report)?;
    Ok(Outcome::Checked)
}

/// Returns the mark of an image, if the header block has one.
pub fn mark_in(kind: AreaKind) -> Option<Mark>
    ensures { result ≡ mark_in kind }
{
    match kind {
        AreaKind::Image(mark) => Some(mark),
        AreaKind::Old => None,
        AreaKind::Other { .. } => None,
        AreaKind::BadArea { .. } => None,
        AreaKind::Swap(_) => None,
    }
}

/// Checks an image, given its marked header block.
fn check_image<D: Disk, R: Report>(
    alloc: Global,
    disk: &mut D,
    header: u32,
    page: &Page,
    mark: Mark,
    report: &mut R,
) -> Result<(), NoMemory>
    ensures told { OnOk result ((found : List Finding) ×
        (FindsImage (D.content disk.old) (D.block_count disk.old) header (D.faults disk.old) (D.faults disk.new)
        mark page.now found
        × Tells found (R.told report.old) (R.told report.new))) }
    ensures refused { OnErr result (R.told report.new ≡ R.told report.old) }
    ensures content { D.content disk.new ≡ D.content disk.old }
    ensures faults { D.faults disk.old ≤ D.faults disk.new }
    ensures orders { D.orders disk.new ≡ D.orders disk.old }
    ensures blocks { D.block_count disk.new ≡ D.block_count disk.old }
{
    let blocks = disk.blocks();
    let limits = limits_of(blocks, header, page);
    let mut walker = Walker::begin(alloc, &limits, mark.first)?;
    check_header(report, blocks, header, mark.flags, page);
    if !is_compressed(mark.flags) {
        check_names(disk, &mut walker, format_of(mark.flags), report);
    }
    Ok(())
}

/// Returns how an image with these flags saves pages of zeros.
pub fn format_of(flags: u32) -> Format
    ensures { result ≡ format_of flags }
{
    if flags / SF_SKIPS_ZEROS % 2 == 1 {
        Format::SkipZeros
    } else {
        Format::Plain
    }
}

/// Reads the blocks that an image names to the end of its chain, and reports what is wrong with each.
fn check_names<D: Disk, R: Report>(
    disk: &mut D,
    walker: &mut Walker,
    format: Format,
    report: &mut R,
)
    requires blocks { D.block_count disk.old ≡ walker.old.limits.blocks }
    requires start { Follows walker.old.walk.next walker.old [] }
    ensures told { (found : List Finding) ×
        (FindsNames walker.old.limits walker.old.walk.next (D.content disk.old) (D.faults disk.old) (D.faults disk.new)
        format found
        × Tells found (R.told report.old) (R.told report.new)) }
    ensures content { D.content disk.new ≡ D.content disk.old }
    ensures faults { D.faults disk.old ≤ D.faults disk.new }
    ensures orders { D.orders disk.new ≡ D.orders disk.old }
    ensures blocks { D.block_count disk.new ≡ D.block_count disk.old }
{
    let mut page = Page::zero();
    let mut progress = Progress::start();
    while let Some(visit) = walker.step(disk, &mut page) {
        check_name(report, format, &mut progress, &visit, &page);
    }
}
