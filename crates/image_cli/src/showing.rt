ghost use Rattle.std.specs.Prelude.{◌≡◌};
ghost use Rattle.command_kit.specs.Causes.{HasCause, SinksFail};
ghost use Rattle.command_kit.specs.OnlyRead.{IsOnlyRead};
ghost use Rattle.command_kit.specs.Told.{IsTried, sink_note};
ghost use Rattle.command_kit.specs.View.{sink_view};
ghost use Rattle.image_cli.specs.Json.{PrintsObject};
ghost use Rattle.image_cli.specs.Shows.{PrintsFacts, status_shown};

use byte_streams::Sink;
use command_kit::{Status, no_memory, print, tell};
use image_show::{Fault, Shown};
use page_core::NoMemory;
use sector_disk::Disk;
use std::alloc::Global;

/// Prints what is written in the area whose header lies in block `header`, one fact per line. The status is `Done` if
/// that block exists and was read, whatever it says. A compressed image is read whole first. The disk is only read.
pub fn show<D: Disk, O: Sink, N: Sink>(
    alloc: Global,
    disk: &mut D,
    header: u32,
    out: &mut O,
    note: &mut N,
) -> Status
    ensures outcome { PrintsFacts (D.content disk.old) (D.block_count disk.old) header
        (D.faults disk.old) (D.faults disk.new) result
        (sink_view O.Sink out.old)
        (sink_view O.Sink out.new)
        (sink_view N.Sink note.old)
        (sink_view N.Sink note.new) }
    ensures cause { HasCause (SinksFail (sink_view O.Sink out.old) (sink_view O.Sink out.new)
        (sink_view N.Sink note.old) (sink_view N.Sink note.new)) ⊥ result }
    ensures disk { IsOnlyRead D.Disk disk.old disk.new }
{
    match expanded_show::show(alloc, disk, header, out) {
        Ok(shown) => tell(status_shown(shown), b"", b"", out, note),
        Err(Fault::NoMemory) => no_memory().tell(out, note),
        Err(Fault::Write) => cut_short(note),
    }
}

/// Prints those facts as the members of one JSON object on a line. The status is that of `show`. The disk is only read.
pub fn show_json<D: Disk, O: Sink, N: Sink>(
    alloc: Global,
    disk: &mut D,
    header: u32,
    out: &mut O,
    note: &mut N,
) -> Status
    ensures outcome { PrintsObject (D.content disk.old) (D.block_count disk.old) header
        (D.faults disk.old) (D.faults disk.new) result
        (sink_view O.Sink out.old)
        (sink_view O.Sink out.new)
        (sink_view N.Sink note.old)
        (sink_view N.Sink note.new) }
    ensures cause { HasCause (SinksFail (sink_view O.Sink out.old) (sink_view O.Sink out.new)
        (sink_view N.Sink note.old) (sink_view N.Sink note.new)) ⊥ result }
    ensures disk { IsOnlyRead D.Disk disk.old disk.new }
{
    match image_json::show(alloc, disk, header) {
        Ok((shown, line)) => tell(status_shown(shown), line.as_bytes(), b"", out, note),
        Err(NoMemory) => no_memory().tell(out, note),
    }
}

fn status_shown(shown: Shown) -> Status
    ensures status { result ≡ status_shown shown }
    ensures cause { HasCause ⊥ ⊥ result }
{
    match shown {
        Shown::Area => Status::Done,
        Shown::NoHeader => Status::Refused,
    }
}

/// Notes that the output failed.
pub(crate) fn cut_short<N: Sink>(note: &mut N) -> Status
    ensures status { result ≡ Status.Stream }
    ensures noted { IsTried sink_note (sink_view N.Sink note.old) (sink_view N.Sink note.new) }
{
    let _ = print(note, b"sink fault\n");
    Status::Stream
}
