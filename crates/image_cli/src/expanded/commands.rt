ghost use Rattle.std.specs.Prelude.{◌≡◌, ◌≤◌, []};
ghost use Rattle.command_kit.specs.AnswerOf.{told_by};
ghost use Rattle.command_kit.specs.Causes.{HasCause, SinksFail};
ghost use Rattle.command_kit.specs.OnlyRead.{IsOnlyRead};
ghost use Rattle.command_kit.specs.View.{sink_view};
ghost use Rattle.image_cli.specs.Cores.{WritesCore};
ghost use Rattle.image_cli.specs.Pages.{WritesPage};
ghost use Rattle.image_cli.specs.Printed.{printer_view};
ghost use Rattle.image_cli.specs.Streams.{Streams, refused_told};
ghost use Rattle.overlay_disk.specs.DiskState.{IsSame};
ghost use Rattle.expanded_disk.specs.Keeps.{HasIndex};
ghost use Rattle.image_cli.specs.ExpandedStreams.{NotesAny, NotesExpanded, Writes};

use crate::expanded::expanding::Compressed;
use byte_streams::{Line, Sink};
use command_kit::{Answer, Status, no_memory};
use expanded_disk::{ExpandedDisk, Opened, Source, Walks, open};
use image_check::Printer;
use overlay_disk::{Lent, Original};
use page_core::NoMemory;
use sector_disk::Disk;
use std::alloc::Global;
use std::marker::Brand;

/// A command that writes what a plain image has, and notes what is wrong with the image.
pub(crate) trait Command {
    /// What it does.
    ghost does: { Self → Writes };

    /// Runs it for the area whose header lies in block `header`. The disk is only read.
    fn run<D: Disk, O: Sink, N: Sink>(
        &self,
        alloc: Global,
        disk: &mut D,
        header: u32,
        out: &mut O,
        note: &mut Printer<N>,
    ) -> Status
        ensures outcome { does self.now (D.content disk.old) (D.block_count disk.old) header
            (D.faults disk.old) (D.faults disk.new) (printer_view N.Sink note.old) result
            (sink_view O.Sink out.old)
            (sink_view O.Sink out.new)
            (sink_view N.Sink note.new.sink) }
        ensures cause { HasCause (SinksFail (sink_view O.Sink out.old) (sink_view O.Sink out.new)
            (sink_view N.Sink note.old.sink) (sink_view N.Sink note.new.sink)) ⊥ result }
        ensures disk { IsOnlyRead D.Disk disk.old disk.new };
}

/// `crate::stream`.
#[derive(Drop)]
pub(crate) struct WriteStream;

impl Command for WriteStream {
    ghost does = { λ _. Streams };

    fn run<D: Disk, O: Sink, N: Sink>(
        &self,
        alloc: Global,
        disk: &mut D,
        header: u32,
        out: &mut O,
        note: &mut Printer<N>,
    ) -> Status {
        crate::stream(alloc, disk, header, out, note)
    }
}

/// `crate::page` of this page frame.
#[derive(Drop)]
pub(crate) struct WritePage {
    pub frame: u64,
}

impl Command for WritePage {
    ghost does = { λ page. WritesPage page.frame };

    fn run<D: Disk, O: Sink, N: Sink>(
        &self,
        alloc: Global,
        disk: &mut D,
        header: u32,
        out: &mut O,
        note: &mut Printer<N>,
    ) -> Status {
        crate::page(alloc, disk, header, self.frame, out, note)
    }
}

/// `crate::core`.
#[derive(Drop)]
pub(crate) struct WriteCore;

impl Command for WriteCore {
    ghost does = { λ _. WritesCore };

    fn run<D: Disk, O: Sink, N: Sink>(
        &self,
        alloc: Global,
        disk: &mut D,
        header: u32,
        out: &mut O,
        note: &mut Printer<N>,
    ) -> Status {
        crate::core(alloc, disk, header, out, note)
    }
}

/// Runs a command for an image that may be compressed. A compressed one is read whole first: if it has a fault, that is
/// noted, and nothing is written. The disk is only read.
pub(crate) fn run<C: Command, D: Disk, O: Sink, N: Sink>(
    command: &C,
    alloc: Global,
    disk: &mut D,
    header: u32,
    out: &mut O,
    note: &mut Printer<N>,
) -> Status
    ensures outcome { NotesAny (C.does command.now) (D.content disk.old) (D.block_count disk.old) header
        (D.faults disk.old) (D.faults disk.new) (printer_view N.Sink note.old) result
        (sink_view O.Sink out.old)
        (sink_view O.Sink out.new)
        (sink_view N.Sink note.new.sink) }
    ensures cause { HasCause (SinksFail (sink_view O.Sink out.old) (sink_view O.Sink out.new)
        (sink_view N.Sink note.old.sink) (sink_view N.Sink note.new.sink)) ⊥ result }
    ensures disk { IsOnlyRead D.Disk disk.old disk.new }
{
    match open(alloc, disk, header, note) {
        Ok(Opened::Plain) => command.run(alloc, disk, header, out, note),
        Ok(Opened::Refused) => refused().tell(out, &mut note.sink),
        Ok(Opened::Whole(index)) => {
            let below = Lent { disk };
            let image = Compressed { header, index };
            let over = run_expanded::<C, Lent<'_, D>, Brand, O, N>(
                command, alloc, below, image, out, note,
            );
            over.1
        }
        Err(NoMemory) => no_memory().tell(out, &mut note.sink),
    }
}

/// Runs a command for the plain image that a compressed one expands to, over a disk that is given back.
fn run_expanded<C: Command, B: Walks + Drop, K: Original, O: Sink, N: Sink>(
    command: &C,
    alloc: Global,
    below: B,
    image: Compressed,
    out: &mut O,
    note: &mut Printer<N>,
) -> (B, Status)
    requires original { B.state below ≡ K.state }
    requires indexed { HasIndex K.state.content K.state.blocks image.header image.index }
    ensures outcome { NotesExpanded (C.does command.now) K.state.content image.header image.index
        K.state.faults (B.state result.0).faults (printer_view N.Sink note.old) result.1
        (sink_view O.Sink out.old)
        (sink_view O.Sink out.new)
        (sink_view N.Sink note.new.sink) }
    ensures cause { HasCause (SinksFail (sink_view O.Sink out.old) (sink_view O.Sink out.new)
        (sink_view N.Sink note.old.sink) (sink_view N.Sink note.new.sink)) ⊥ result.1 }
    ensures same { IsSame K.state (B.state result.0) }
    ensures faults { K.state.faults ≤ (B.state result.0).faults }
{
    let source = Source::<B, K>::over(below);
    match ExpandedDisk::over(alloc, source, image.index, image.header) {
        Ok(mut disk) => {
            let status = command.run(alloc, &mut disk, 0, out, note);
            (disk.into_source().into_below(), status)
        }
        Err((source, NoMemory)) => {
            let status = no_memory().tell(out, &mut note.sink);
            (source.into_below(), status)
        }
    }
}

/// Returns a refusal without a further note.
fn refused() -> Answer
    ensures told { told_by result ≡ refused_told [] }
    ensures status { result.status ≡ Status.Refused }
{
    Answer {
        status: Status::Refused,
        out: Line::new(),
        note: Line::new(),
    }
}
