ghost use Rattle.command_kit.specs.Causes.{HasCause, SinksFail};
ghost use Rattle.command_kit.specs.OnlyRead.{IsOnlyRead};
ghost use Rattle.command_kit.specs.View.{sink_view};
ghost use Rattle.image_cli.specs.Cores.{WritesCore};
ghost use Rattle.image_cli.specs.Pages.{WritesPage};
ghost use Rattle.image_cli.specs.Printed.{printer_view};
ghost use Rattle.image_cli.specs.Streams.{Streams};
ghost use Rattle.image_cli.specs.ExpandedStreams.{NotesAny};

use crate::expanded::commands::{WriteCore, WritePage, WriteStream, run};
use byte_streams::Sink;
use command_kit::Status;
use image_check::Printer;
use sector_disk::Disk;
use std::alloc::Global;

/// Writes the image of the area whose header lies in block `header` as a stream, as `crate::stream` does. A
/// compressed one is read whole first: if it has a fault, that is noted, and nothing is written. The disk is only read.
pub fn stream<D: Disk, O: Sink, N: Sink>(
    alloc: Global,
    disk: &mut D,
    header: u32,
    out: &mut O,
    note: &mut Printer<N>,
) -> Status
    ensures outcome { NotesAny Streams (D.content disk.old) (D.block_count disk.old) header
        (D.faults disk.old) (D.faults disk.new) (printer_view N.Sink note.old) result
        (sink_view O.Sink out.old)
        (sink_view O.Sink out.new)
        (sink_view N.Sink note.new.sink) }
    ensures cause { HasCause (SinksFail (sink_view O.Sink out.old) (sink_view O.Sink out.new)
        (sink_view N.Sink note.old.sink) (sink_view N.Sink note.new.sink)) ⊥ result }
    ensures disk { IsOnlyRead D.Disk disk.old disk.new }
{
    run(&WriteStream, alloc, disk, header, out, note)
}

/// Writes the saved page of a page frame, as `crate::page` does. A compressed image is read whole first. The disk
/// is only read.
pub fn page<D: Disk, O: Sink, N: Sink>(
    alloc: Global,
    disk: &mut D,
    header: u32,
    frame: u64,
    out: &mut O,
    note: &mut Printer<N>,
) -> Status
    ensures outcome { NotesAny (WritesPage frame) (D.content disk.old) (D.block_count disk.old) header
        (D.faults disk.old) (D.faults disk.new) (printer_view N.Sink note.old) result
        (sink_view O.Sink out.old)
        (sink_view O.Sink out.new)
        (sink_view N.Sink note.new.sink) }
    ensures cause { HasCause (SinksFail (sink_view O.Sink out.old) (sink_view O.Sink out.new)
        (sink_view N.Sink note.old.sink) (sink_view N.Sink note.new.sink)) ⊥ result }
    ensures disk { IsOnlyRead D.Disk disk.old disk.new }
{
    run(&WritePage { frame }, alloc, disk, header, out, note)
}

/// Writes the saved page frames as a core file, as `crate::core` does. A compressed image is read whole first. The
/// disk is only read.
pub fn core<D: Disk, O: Sink, N: Sink>(
    alloc: Global,
    disk: &mut D,
    header: u32,
    out: &mut O,
    note: &mut Printer<N>,
) -> Status
    ensures outcome { NotesAny WritesCore (D.content disk.old) (D.block_count disk.old) header
        (D.faults disk.old) (D.faults disk.new) (printer_view N.Sink note.old) result
        (sink_view O.Sink out.old)
        (sink_view O.Sink out.new)
        (sink_view N.Sink note.new.sink) }
    ensures cause { HasCause (SinksFail (sink_view O.Sink out.old) (sink_view O.Sink out.new)
        (sink_view N.Sink note.old.sink) (sink_view N.Sink note.new.sink)) ⊥ result }
    ensures disk { IsOnlyRead D.Disk disk.old disk.new }
{
    run(&WriteCore, alloc, disk, header, out, note)
}
