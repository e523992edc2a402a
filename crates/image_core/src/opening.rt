ghost use Rattle.std.specs.Prelude.{◌≡◌, ◌≤◌, IfErr, IfOk, OnOk};
ghost use Rattle.image_pages.specs.Chain.{IsChainPage};
ghost use Rattle.image_core.specs.Cores.{IsStopped};

use crate::stop::Stop;
use image_check::Report;
use image_pages::{Opened, Pages, Reader, read_page};
use page_core::Page;
use sector_disk::Disk;
use std::alloc::Global;

/// Opens an image.
pub(crate) fn open<T: Reader, D: Disk, R: Report>(
    alloc: Global,
    disk: &mut D,
    header: u32,
    report: &mut R,
) -> Result<T, Stop>
    ensures opened { IfOk result (T.begins (D.content disk.old) (D.block_count disk.old) header) }
    ensures told { OnOk result (R.told report.new ≡ R.told report.old) }
    ensures stopped { IfErr result (IsStopped (D.content disk.old) (D.block_count disk.old) header
        (D.faults disk.old) (D.faults disk.new) (R.told report.old) (R.told report.new) 0 0) }
    ensures content { D.content disk.new ≡ D.content disk.old }
    ensures faults { D.faults disk.old ≤ D.faults disk.new }
    ensures orders { D.orders disk.new ≡ D.orders disk.old }
    ensures blocks { D.block_count disk.new ≡ D.block_count disk.old }
{
    match T::open(alloc, disk, header, report)? {
        Opened::NoImage => Err(Stop::NoImage),
        Opened::Refused => Err(Stop::Refused),
        Opened::Open(reader) => Ok(reader),
    }
}

/// Reads the info page of an image.
pub(crate) fn read_info<D: Disk, R: Report>(
    alloc: Global,
    disk: &mut D,
    header: u32,
    report: &mut R,
) -> Result<Page, Stop>
    ensures page { IfOk result (IsChainPage (D.content disk.old) header 0) }
    ensures told { OnOk result (R.told report.new ≡ R.told report.old) }
    ensures stopped { IfErr result (IsStopped (D.content disk.old) (D.block_count disk.old) header
        (D.faults disk.old) (D.faults disk.new) (R.told report.old) (R.told report.new) 0 0) }
    ensures content { D.content disk.new ≡ D.content disk.old }
    ensures faults { D.faults disk.old ≤ D.faults disk.new }
    ensures orders { D.orders disk.new ≡ D.orders disk.old }
    ensures blocks { D.block_count disk.new ≡ D.block_count disk.old }
{
    let mut pages: Pages = open(alloc, disk, header, report)?;
    let mut info = Page::zero();
    if !read_page(&mut pages, disk, report, &mut info) {
        return Err(Stop::Refused);
    }
    Ok(info)
}
