ghost use Rattle.std.specs.Prelude.{◌≡◌, ◌≤◌, ◌++◌, codes, decimal, length};
ghost use Rattle.command_kit.specs.AnswerOf.{told_by};
ghost use Rattle.command_kit.specs.Causes.{HasCause, SinksFail};
ghost use Rattle.command_kit.specs.OnlyRead.{IsOnlyRead};
ghost use Rattle.command_kit.specs.Told.{IsTold, line};
ghost use Rattle.command_kit.specs.View.{sink_view};
ghost use Rattle.image_cli.specs.Pages.{WritesPage, found_told};
ghost use Rattle.image_cli.specs.Printed.{printer_view};
ghost use Rattle.image_cli.specs.Streams.{Streams, refused_told, streamed_told};

use crate::showing::cut_short;
use byte_streams::{Line, Sink};
use command_kit::{Answer, Status, no_memory, tell};
use image_check::Printer;
use image_pages::{Found, page_of};
use image_stream::{Stop, Streamed};
use page_core::{NoMemory, Page};
use sector_disk::Disk;
use std::alloc::Global;

/// Writes the image of the area whose header lies in block `header` as a stream, as `swsusp export` does. What is wrong
/// with the image is noted, and ends the stream. The disk is only read.
pub fn stream<D: Disk, O: Sink, N: Sink>(
    alloc: Global,
    disk: &mut D,
    header: u32,
    out: &mut O,
    note: &mut Printer<N>,
) -> Status
    ensures outcome { Streams (D.content disk.old) (D.block_count disk.old) header
        (D.faults disk.old) (D.faults disk.new) (printer_view N.Sink note.old) result
        (sink_view O.Sink out.old)
        (sink_view O.Sink out.new)
        (sink_view N.Sink note.new.sink) }
    ensures cause { HasCause (SinksFail (sink_view O.Sink out.old) (sink_view O.Sink out.new)
        (sink_view N.Sink note.old.sink) (sink_view N.Sink note.new.sink)) ⊥ result }
    ensures disk { IsOnlyRead D.Disk disk.old disk.new }
{
    match image_stream::stream(alloc, disk, header, out, note) {
        Ok(streamed) => streamed_told(streamed).tell(out, &mut note.sink),
        Err(Stop::Sink) => cut_short(&mut note.sink),
        Err(Stop::Memory) => no_memory().tell(out, &mut note.sink),
    }
}

/// Writes the saved page of a page frame in the image of the area whose header lies in block `header`. What is wrong
/// with the image up to there is noted. The disk is only read.
pub fn page<D: Disk, O: Sink, N: Sink>(
    alloc: Global,
    disk: &mut D,
    header: u32,
    frame: u64,
    out: &mut O,
    note: &mut Printer<N>,
) -> Status
    ensures outcome { WritesPage frame (D.content disk.old) (D.block_count disk.old) header
        (D.faults disk.old) (D.faults disk.new) (printer_view N.Sink note.old) result
        (sink_view O.Sink out.old)
        (sink_view O.Sink out.new)
        (sink_view N.Sink note.new.sink) }
    ensures cause { HasCause (SinksFail (sink_view O.Sink out.old) (sink_view O.Sink out.new)
        (sink_view N.Sink note.old.sink) (sink_view N.Sink note.new.sink)) ⊥ result }
    ensures disk { IsOnlyRead D.Disk disk.old disk.new }
{
    let mut page = Page::zero();
    match page_of(alloc, disk, header, frame, &mut page, note) {
        Ok(found) => tell_found(found, frame, &page, out, &mut note.sink),
        Err(NoMemory) => no_memory().tell(out, &mut note.sink),
    }
}

/// Returns what is printed at the end of a stream.
fn streamed_told(streamed: Streamed) -> Answer
    ensures told { told_by result ≡ streamed_told streamed }
    ensures cause { HasCause ⊥ ⊥ result.status }
{
    match streamed {
        Streamed::Whole => Answer {
            status: Status::Done,
            out: Line::new(),
            note: Line::new(),
        },
        Streamed::NoImage => refused(b"no image\n"),
        Streamed::Refused => refused(b""),
    }
}

/// Returns a refusal with this note.
fn refused(text: &[u8]) -> Answer
    requires { length text.now ≤ 40 }
    ensures told { told_by result ≡ refused_told text.now }
    ensures status { result.status ≡ Status.Refused }
{
    let mut note = Line::new();
    note.put(text);
    Answer {
        status: Status::Refused,
        out: Line::new(),
        note,
    }
}

/// Prints the page of a page frame, or why there is none.
fn tell_found<O: Sink, N: Sink>(
    found: Found,
    frame: u64,
    page: &Page,
    out: &mut O,
    note: &mut N,
) -> Status
    ensures told { IsTold (found_told frame page.now found) result
        (sink_view O.Sink out.old)
        (sink_view O.Sink out.new)
        (sink_view N.Sink note.old)
        (sink_view N.Sink note.new) }
    ensures cause { HasCause (SinksFail (sink_view O.Sink out.old) (sink_view O.Sink out.new)
        (sink_view N.Sink note.old) (sink_view N.Sink note.new)) ⊥ result }
{
    match found {
        Found::Page => tell(Status::Done, page.as_bytes(), b"", out, note),
        Found::NoPage => refused_frame(frame).tell(out, note),
        Found::NoImage => refused(b"no image\n").tell(out, note),
        Found::Refused => refused(b"").tell(out, note),
    }
}

/// Returns the answer that no page of this page frame was saved.
fn refused_frame(frame: u64) -> Answer
    ensures told { told_by result ≡ refused_told (line (codes "no page " ++ decimal frame)) }
    ensures status { result.status ≡ Status.Refused }
{
    let mut note = Line::new();
    note.put(b"no page ");
    note.put_number(frame);
    note.put(b"\n");
    Answer {
        status: Status::Refused,
        out: Line::new(),
        note,
    }
}
