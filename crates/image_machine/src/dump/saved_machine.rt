ghost use Rattle.std.specs.Prelude.{◌≡◌, ◌≤◌, [], Option, IfOk, OnErr};
ghost use Rattle.definitions.specs.Disk.{Content};
ghost use Rattle.image_machine.specs.Filled.{IsFilled};
ghost use Rattle.image_machine.specs.Headings.{IsHeadingOf};
ghost use Rattle.image_machine.specs.Makes.{MakesMachine, MakesMachineFrom};

use crate::dump::adding::Added;
use crate::dump::begun::{Begun, begin};
use crate::dump::laying::lay_all;
use crate::dump::made::{Asked, Made};
use crate::{FilledPlan, Layout, Stop};
use image_check::Report;
use image_pages::frames::Frames;
use image_pages::{Opened, Reader};
use page_core::NoMemory;
use sector_disk::Disk;
use std::alloc::Global;

/// Makes the dump of the machine that the image of an area saved: its page frames in use are the saved ones, with their
/// pages, and it can hibernate again. Its frame table and its slot table are in the image, from these page frames on;
/// without them it gets new ones in page frames that the image doesn't save. The image is read to its end; its header
/// block and its info page are read twice, so that a limit which they violate is reported before a page is read.
pub fn machine_of<D: Disk, R: Report>(
    alloc: Global,
    disk: &mut D,
    layout: &Layout<'_>,
    tables: Option<(u32, u32)>,
    report: &mut R,
) -> Result<Made, NoMemory>
    ensures made { IfOk result (MakesMachine (D.content disk.old) (D.block_count disk.old)
        (D.faults disk.old) (D.faults disk.new) (R.told report.old) (R.told report.new) layout.now tables) }
    ensures untold { OnErr result (R.told report.new ≡ R.told report.old) }
    ensures content { D.content disk.new ≡ D.content disk.old }
    ensures faults { D.faults disk.old ≤ D.faults disk.new }
    ensures orders { D.orders disk.new ≡ D.orders disk.old }
    ensures blocks { D.block_count disk.new ≡ D.block_count disk.old }
{
    let heading = match begin(alloc, disk, layout.offset, report)? {
        Begun::NoImage => return Ok(Made::NoImage),
        Begun::Refused => return Ok(Made::Refused),
        Begun::NoArea => return Ok(Made::NoArea),
        Begun::Open(heading, _) => heading,
    };
    let asked = Asked {
        heading,
        layout: *layout,
    };
    machine_from(alloc, &asked, tables, disk, layout.offset, report)
}

/// Does the same for an image whose heading was read. Its page frames are read by the header block of any disk.
pub fn machine_from<D: Disk, R: Report>(
    alloc: Global,
    asked: &Asked<'_>,
    tables: Option<(u32, u32)>,
    disk: &mut D,
    header: u32,
    report: &mut R,
) -> Result<Made, NoMemory>
    ensures made { (area : Option Content) → IsHeadingOf area asked.now.layout.offset asked.now.heading →
        IfOk result (MakesMachineFrom area (D.content disk.old) (D.block_count disk.old) header
        (D.faults disk.old) (D.faults disk.new) (R.told report.old) (R.told report.new) asked.now.layout tables) }
    ensures untold { OnErr result (R.told report.new ≡ R.told report.old) }
    ensures content { D.content disk.new ≡ D.content disk.old }
    ensures faults { D.faults disk.old ≤ D.faults disk.new }
    ensures orders { D.orders disk.new ≡ D.orders disk.old }
    ensures blocks { D.block_count disk.new ≡ D.block_count disk.old }
{
    match FilledPlan::of(alloc, &asked.heading, asked.layout) {
        Ok(filled) => fill(alloc, filled, tables, disk, header, report),
        Err(Stop::Limit(limit)) => Ok(Made::Limit(limit)),
        Err(Stop::Memory) => Err(NoMemory),
    }
}

/// Makes the machine of an image whose heading was read.
#[inline(never)]
fn fill<D: Disk, R: Report>(
    alloc: Global,
    mut filled: FilledPlan<'_>,
    tables: Option<(u32, u32)>,
    disk: &mut D,
    header: u32,
    report: &mut R,
) -> Result<Made, NoMemory>
    requires filled { IsFilled filled [] }
    ensures made { (area : Option Content) →
        IsHeadingOf area filled.entry.plan.layout.offset filled.entry.plan.heading →
        IfOk result (MakesMachineFrom area (D.content disk.old) (D.block_count disk.old) header
        (D.faults disk.old) (D.faults disk.new) (R.told report.old) (R.told report.new)
        filled.entry.plan.layout tables) }
    ensures untold { OnErr result (R.told report.new ≡ R.told report.old) }
    ensures content { D.content disk.new ≡ D.content disk.old }
    ensures faults { D.faults disk.old ≤ D.faults disk.new }
    ensures orders { D.orders disk.new ≡ D.orders disk.old }
    ensures blocks { D.block_count disk.new ≡ D.block_count disk.old }
{
    let mut frames = match Frames::open(alloc, disk, header, report)? {
        Opened::NoImage => return Ok(Made::NoImage),
        Opened::Refused => return Ok(Made::Refused),
        Opened::Open(frames) => frames,
    };
    match lay_all(&mut filled, &mut frames, disk, report) {
        Added::All => {}
        Added::Refused => return Ok(Made::Refused),
        Added::Limit(limit) => return Ok(Made::Limit(limit)),
    }
    match filled.machine(tables) {
        Ok(dump) => Ok(Made::Dump(dump)),
        Err(limit) => Ok(Made::Limit(limit)),
    }
}
