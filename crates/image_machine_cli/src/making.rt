ghost use Rattle.std.specs.Prelude.{◌≡◌, Option, IfOk, OnErr};
ghost use Rattle.definitions.specs.Disk.{Content};
ghost use Rattle.command_kit.specs.OnlyRead.{IsOnlyRead};
ghost use Rattle.image_machine.specs.Headings.{IsHeadingOf};
ghost use Rattle.image_machine_cli.specs.Makes.{MakesWanted};

use crate::wanted::Wanted;
use image_check::Report;
use image_machine::{Asked, Layout, Made, loader_from, loader_of, machine_from, machine_of};
use page_core::NoMemory;
use sector_disk::Disk;
use std::alloc::Global;

/// Makes the requested dump of an image that isn't compressed.
pub(crate) fn make_plain<D: Disk, R: Report>(
    alloc: Global,
    disk: &mut D,
    layout: &Layout<'_>,
    wanted: Wanted,
    report: &mut R,
) -> Result<Made, NoMemory>
    ensures made { IfOk result (MakesWanted wanted (D.content disk.old) (D.content disk.old) (D.block_count disk.old)
        layout.now.offset (D.faults disk.old) (D.faults disk.new) (R.told report.old) (R.told report.new) layout.now) }
    ensures untold { OnErr result (R.told report.new ≡ R.told report.old) }
    ensures disk { IsOnlyRead D.Disk disk.old disk.new }
{
    match wanted {
        Wanted::Loader => loader_of(alloc, disk, layout, report),
        Wanted::Saved(tables) => machine_of(alloc, disk, layout, tables, report),
    }
}

/// Does the same for an image whose heading was read, over a disk that has its page frames and their header in block 0.
pub(crate) fn make_from<D: Disk, R: Report>(
    alloc: Global,
    disk: &mut D,
    asked: &Asked<'_>,
    wanted: Wanted,
    report: &mut R,
) -> Result<Made, NoMemory>
    ensures made { (area : Option Content) → IsHeadingOf area asked.now.layout.offset asked.now.heading →
        IfOk result (MakesWanted wanted area (D.content disk.old) (D.block_count disk.old) 0
        (D.faults disk.old) (D.faults disk.new) (R.told report.old) (R.told report.new) asked.now.layout) }
    ensures untold { OnErr result (R.told report.new ≡ R.told report.old) }
    ensures disk { IsOnlyRead D.Disk disk.old disk.new }
{
    match wanted {
        Wanted::Loader => loader_from(alloc, asked, disk, 0, report),
        Wanted::Saved(tables) => machine_from(alloc, asked, tables, disk, 0, report),
    }
}
