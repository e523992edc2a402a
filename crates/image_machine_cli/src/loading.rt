ghost use Rattle.command_kit.specs.Causes.{HasCause, SinksFail};
ghost use Rattle.command_kit.specs.OnlyRead.{IsOnlyRead};
ghost use Rattle.command_kit.specs.View.{sink_view};
ghost use Rattle.image_cli.specs.Printed.{printer_view};
ghost use Rattle.image_machine_cli.specs.Loads.{GivesDump, GivesMachine, Loads};

use crate::dumping::{Whole, dump_expanded, dump_plain};
use crate::telling::tell_made;
use crate::wanted::Wanted;
use byte_streams::Sink;
use command_kit::{Status, no_memory};
use expanded_disk::{Opened, open};
use image_check::Printer;
use image_machine::{Asked, Headed, Layout, Made, heading_in};
use overlay_disk::Lent;
use page_core::NoMemory;
use sector_disk::Disk;
use std::alloc::Global;
use std::marker::Brand;

/// Prints the dump of a loader into which the image of an area can be resumed. If there is none, the note says why:
/// what is wrong with the image, or which limit it violates. A compressed image is read whole first. The disk is only
/// read.
#[inline(never)]
pub fn loader<D: Disk, O: Sink, N: Sink>(
    alloc: Global,
    disk: &mut D,
    layout: &Layout<'_>,
    out: &mut O,
    note: &mut Printer<N>,
) -> Status
    ensures outcome { Loads (D.content disk.old) (D.block_count disk.old) (D.faults disk.old) (D.faults disk.new)
        (printer_view N.Sink note.old) layout.now result
        (sink_view O.Sink out.old)
        (sink_view O.Sink out.new)
        (sink_view N.Sink note.new.sink) }
    ensures cause { HasCause (SinksFail (sink_view O.Sink out.old) (sink_view O.Sink out.new)
        (sink_view N.Sink note.old.sink) (sink_view N.Sink note.new.sink)) ⊥ result }
    ensures disk { IsOnlyRead D.Disk disk.old disk.new }
{
    dump(alloc, disk, layout, Wanted::Loader, out, note)
}

/// Prints the dump of the machine that the image of an area saved. Its tables are in the image, from these page frames
/// on; without them it gets new ones. If there is no such machine, the note says why: what is wrong with the image, or
/// which limit it violates. A compressed image is read whole first. The disk is only read.
#[inline(never)]
pub fn machine<D: Disk, O: Sink, N: Sink>(
    alloc: Global,
    disk: &mut D,
    layout: &Layout<'_>,
    tables: Option<(u32, u32)>,
    out: &mut O,
    note: &mut Printer<N>,
) -> Status
    ensures outcome { GivesMachine (D.content disk.old) (D.block_count disk.old) (D.faults disk.old) (D.faults disk.new)
        (printer_view N.Sink note.old) layout.now tables result
        (sink_view O.Sink out.old)
        (sink_view O.Sink out.new)
        (sink_view N.Sink note.new.sink) }
    ensures cause { HasCause (SinksFail (sink_view O.Sink out.old) (sink_view O.Sink out.new)
        (sink_view N.Sink note.old.sink) (sink_view N.Sink note.new.sink)) ⊥ result }
    ensures disk { IsOnlyRead D.Disk disk.old disk.new }
{
    dump(alloc, disk, layout, Wanted::Saved(tables), out, note)
}

/// Prints the dump of the requested machine. For a compressed image, the heading is that of the area, and the page
/// frames are those of the plain image that it expands to.
fn dump<D: Disk, O: Sink, N: Sink>(
    alloc: Global,
    disk: &mut D,
    layout: &Layout<'_>,
    wanted: Wanted,
    out: &mut O,
    note: &mut Printer<N>,
) -> Status
    ensures outcome { GivesDump wanted (D.content disk.old) (D.block_count disk.old)
        (D.faults disk.old) (D.faults disk.new) (printer_view N.Sink note.old) layout.now result
        (sink_view O.Sink out.old)
        (sink_view O.Sink out.new)
        (sink_view N.Sink note.new.sink) }
    ensures cause { HasCause (SinksFail (sink_view O.Sink out.old) (sink_view O.Sink out.new)
        (sink_view N.Sink note.old.sink) (sink_view N.Sink note.new.sink)) ⊥ result }
    ensures disk { IsOnlyRead D.Disk disk.old disk.new }
{
    match open(alloc, disk, layout.offset, note) {
        Ok(Opened::Plain) => dump_plain(alloc, disk, layout, wanted, out, note),
        Ok(Opened::Refused) => tell_made(&Made::Refused, out, &mut note.sink),
        Ok(Opened::Whole(index)) => match heading_in(&index.header, &index.info) {
            Headed::NoImage => tell_made(&Made::NoImage, out, &mut note.sink),
            Headed::NoArea => tell_made(&Made::NoArea, out, &mut note.sink),
            Headed::Heading(heading) => {
                let below = Lent { disk };
                let asked = Asked {
                    heading,
                    layout: *layout,
                };
                let image = Whole {
                    index,
                    asked,
                    wanted,
                };
                let over = dump_expanded::<Lent<'_, D>, Brand, O, N>(
                    alloc, below, image, out, note,
                );
                over.1
            }
        },
        Err(NoMemory) => no_memory().tell(out, &mut note.sink),
    }
}
