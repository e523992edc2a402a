ghost use Rattle.std.specs.Prelude.{◌≡◌, ◌≤◌, [], Option, IfOk, OnErr};
ghost use Rattle.definitions.specs.Disk.{Content};
ghost use Rattle.image_machine.specs.Plans.{IsPlan};
ghost use Rattle.image_machine.specs.Headings.{IsHeadingOf};
ghost use Rattle.image_machine.specs.Makes.{Makes, MakesFrom};

use crate::dump::adding::{Added, add_all};
use crate::dump::begun::{Begun, begin};
use crate::dump::made::{Asked, Made};
use crate::{Layout, Plan, Stop};
use image_check::Report;
use image_pages::frames::Numbers;
use image_pages::{Opened, Reader};
use page_core::NoMemory;
use sector_disk::Disk;
use std::alloc::Global;

/// Makes the dump of a loader into which the image of an area can be resumed: a machine that has just booted, whose
/// tables lie in no page frame that the image saves. The header block, the info page and the number pages of the image
/// are read, the first two twice, so that a limit which they violate is reported before a number is read.
pub fn loader_of<D: Disk, R: Report>(
    alloc: Global,
    disk: &mut D,
    layout: &Layout<'_>,
    report: &mut R,
) -> Result<Made, NoMemory>
    ensures made { IfOk result (Makes (D.content disk.old) (D.block_count disk.old)
        (D.faults disk.old) (D.faults disk.new) (R.told report.old) (R.told report.new) layout.now) }
    ensures untold { OnErr result (R.told report.new ≡ R.told report.old) }
    ensures content { D.content disk.new ≡ D.content disk.old }
    ensures faults { D.faults disk.old ≤ D.faults disk.new }
    ensures orders { D.orders disk.new ≡ D.orders disk.old }
    ensures blocks { D.block_count disk.new ≡ D.block_count disk.old }
{
    let heading = match begin(alloc, disk, layout.offset, report)? {
        Begun::NoImage => return Ok(Made::NoImage),
        Begun::Refused => return Ok(Made::Refused),
        Begun::NoArea => return Ok(Made::NoArea),
        Begun::Open(heading, _) => heading,
    };
    let asked = Asked {
        heading,
        layout: *layout,
    };
    loader_from(alloc, &asked, disk, layout.offset, report)
}

/// Does the same for an image whose heading was read. Its numbers are read by the header block of any disk.
pub fn loader_from<D: Disk, R: Report>(
    alloc: Global,
    asked: &Asked<'_>,
    disk: &mut D,
    header: u32,
    report: &mut R,
) -> Result<Made, NoMemory>
    ensures made { (area : Option Content) → IsHeadingOf area asked.now.layout.offset asked.now.heading →
        IfOk result (MakesFrom area (D.content disk.old) (D.block_count disk.old) header
        (D.faults disk.old) (D.faults disk.new) (R.told report.old) (R.told report.new) asked.now.layout) }
    ensures untold { OnErr result (R.told report.new ≡ R.told report.old) }
    ensures content { D.content disk.new ≡ D.content disk.old }
    ensures faults { D.faults disk.old ≤ D.faults disk.new }
    ensures orders { D.orders disk.new ≡ D.orders disk.old }
    ensures blocks { D.block_count disk.new ≡ D.block_count disk.old }
{
    match Plan::of(alloc, &asked.heading, asked.layout) {
        Ok(plan) => follow(alloc, plan, disk, header, report),
        Err(Stop::Limit(limit)) => Ok(Made::Limit(limit)),
        Err(Stop::Memory) => Err(NoMemory),
    }
}

/// Makes the loader of an image whose numbers weren't read yet.
#[inline(never)]
fn follow<D: Disk, R: Report>(
    alloc: Global,
    mut plan: Plan<'_>,
    disk: &mut D,
    header: u32,
    report: &mut R,
) -> Result<Made, NoMemory>
    requires plan { IsPlan plan }
    requires none { plan.saved.members ≡ [] }
    ensures made { (area : Option Content) → IsHeadingOf area plan.entry.layout.offset plan.entry.heading →
        IfOk result (MakesFrom area (D.content disk.old) (D.block_count disk.old) header
        (D.faults disk.old) (D.faults disk.new) (R.told report.old) (R.told report.new) plan.entry.layout) }
    ensures untold { OnErr result (R.told report.new ≡ R.told report.old) }
    ensures content { D.content disk.new ≡ D.content disk.old }
    ensures faults { D.faults disk.old ≤ D.faults disk.new }
    ensures orders { D.orders disk.new ≡ D.orders disk.old }
    ensures blocks { D.block_count disk.new ≡ D.block_count disk.old }
{
    let mut numbers = match Numbers::open(alloc, disk, header, report)? {
        Opened::NoImage => return Ok(Made::NoImage),
        Opened::Refused => return Ok(Made::Refused),
        Opened::Open(numbers) => numbers,
    };
    match add_all(&mut plan, &mut numbers, disk, report) {
        Added::All => {}
        Added::Refused => return Ok(Made::Refused),
        Added::Limit(limit) => return Ok(Made::Limit(limit)),
    }
    match plan.loader(alloc) {
        Ok(dump) => Ok(Made::Dump(dump)),
        Err(Stop::Limit(limit)) => Ok(Made::Limit(limit)),
        Err(Stop::Memory) => Err(NoMemory),
    }
}
