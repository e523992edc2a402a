ghost use Rattle.std.specs.Prelude.{◌≡◌, ◌⊎◌};
ghost use Rattle.command_kit.specs.Causes.{HasCause, SinksFail};
ghost use Rattle.command_kit.specs.OnlyRead.{IsOnlyRead};
ghost use Rattle.command_kit.specs.View.{sink_view};
ghost use Rattle.image_cli.specs.Cores.{TellsStop, WritesCore};
ghost use Rattle.image_cli.specs.Printed.{printer_view};
ghost use Rattle.image_core.specs.declared.stop.Stop.TheVariants as stop;

use crate::showing::cut_short;
use byte_streams::Sink;
use command_kit::{Status, no_memory, tell};
use image_check::Printer;
use image_core::{Stop, write_core};
use sector_disk::Disk;
use std::alloc::Global;

/// Writes the saved page frames of the image of the area whose header lies in block `header` as a core file. What is
/// wrong with the image is noted, and ends the file. The disk is only read.
pub fn core<D: Disk, O: Sink, N: Sink>(
    alloc: Global,
    disk: &mut D,
    header: u32,
    out: &mut O,
    note: &mut Printer<N>,
) -> Status
    ensures outcome { WritesCore (D.content disk.old) (D.block_count disk.old) header
        (D.faults disk.old) (D.faults disk.new) (printer_view N.Sink note.old) result
        (sink_view O.Sink out.old)
        (sink_view O.Sink out.new)
        (sink_view N.Sink note.new.sink) }
    ensures cause { HasCause (SinksFail (sink_view O.Sink out.old) (sink_view O.Sink out.new)
        (sink_view N.Sink note.old.sink) (sink_view N.Sink note.new.sink)) ⊥ result }
    ensures disk { IsOnlyRead D.Disk disk.old disk.new }
{
    match write_core(alloc, disk, header, out, note) {
        Ok(()) => tell(Status::Done, b"", b"", out, &mut note.sink),
        Err(why) => tell_stop(why, out, &mut note.sink),
    }
}

/// Prints why the core file isn't whole.
fn tell_stop<O: Sink, N: Sink>(why: Stop, out: &mut O, note: &mut N) -> Status
    ensures told { TellsStop why result
        (sink_view O.Sink out.old)
        (sink_view O.Sink out.new)
        (sink_view N.Sink note.old)
        (sink_view N.Sink note.new) }
    ensures cause { HasCause ((why ≡ stop.Sink) ⊎ SinksFail (sink_view O.Sink out.old) (sink_view O.Sink out.new)
        (sink_view N.Sink note.old) (sink_view N.Sink note.new)) ⊥ result }
{
    match why {
        Stop::NoImage => tell(Status::Refused, b"", b"no image\n", out, note),
        Stop::Refused => tell(Status::Refused, b"", b"", out, note),
        Stop::TooMany => tell(Status::Refused, b"", b"too many page frames\n", out, note),
        Stop::Changed => tell(Status::Refused, b"", b"the image changed\n", out, note),
        Stop::Sink => cut_short(note),
        Stop::Memory => no_memory().tell(out, note),
    }
}
