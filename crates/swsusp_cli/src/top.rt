ghost use Rattle.std.specs.Prelude.{◌≡◌, ◌≢◌, ◌⊎◌, map, string_bytes};
ghost use Rattle.definitions.specs.Disk.{HasRisen};
ghost use Rattle.command_kit.specs.Told.{memory_told, unparsed};
ghost use Rattle.command_kit.specs.Told.{IsTold};
ghost use Rattle.command_kit.specs.View.{sink_view, view};
ghost use Rattle.swsusp_cli.specs.Theorem.{Promise};

use crate::drilling::drill;
use crate::exporting::export_dump;
use crate::hibernating::{Wanted, hibernate_dump};
use crate::importing::import_stream;
use crate::inspection::inspect;
use crate::replay::replay;
use crate::resuming::resume_dump;
use byte_streams::{Sink, Source};
use command_kit::{Status, no_memory, tell};
use command_words::swsusp::{Command, Unparsed};
use sector_disk::Disk;
use std::alloc::Global;

/// Runs the program over its words, the first of which is its name.
pub fn run<I: Source, O: Sink, N: Sink, D: Disk>(
    alloc: Global,
    words: &[String],
    input: &mut I,
    out: &mut O,
    note: &mut N,
    disk: &mut D,
) -> Status
    ensures theorem { Promise D.Disk (map string_bytes words.now) disk.old disk.new
        (view I.Source O.Sink N.Sink D.Disk input.old out.old note.old disk.old)
        (view I.Source O.Sink N.Sink D.Disk input.new out.new note.new disk.new) result }
{
    match Command::parse(alloc, words) {
        Ok(Command::Inspect { offset, .. }) => inspect(disk, offset).tell(out, note),
        Ok(Command::Hibernate { format, size, .. }) => {
            hibernate_dump(alloc, Wanted { format, size }, input, out, note, disk)
        }
        Ok(Command::Resume { check, .. }) => resume_dump(alloc, check, input, out, note, disk),
        Ok(Command::Replay) => replay(alloc, input, out, note, disk),
        Ok(Command::Drill(number)) => drill(alloc, number, out, note, disk),
        Ok(Command::Export) => export_dump(alloc, input, out, note),
        Ok(Command::Import { .. }) => import_stream(alloc, input, out, note, disk),
        Err(Unparsed::Words(text)) => refuse(text.as_str(), out, note),
        Err(Unparsed::NoMemory) => run_out_of_memory(out, note),
    }
}

/// Says that the words don't parse.
fn refuse<O: Sink, N: Sink>(text: &str, out: &mut O, note: &mut N) -> Status
    ensures told { IsTold (unparsed text.now) result
        (sink_view O.Sink out.old)
        (sink_view O.Sink out.new)
        (sink_view N.Sink note.old)
        (sink_view N.Sink note.new) }
    ensures stream { result ≡ Status.Stream →
        HasRisen (O.faults out.old) (O.faults out.new) ⊎ HasRisen (N.faults note.old) (N.faults note.new) }
    ensures status { result ≢ Status.Stream → result ≡ Status.Words }
{
    tell(Status::Words, b"", text.as_bytes(), out, note)
}

/// Says that memory was refused.
fn run_out_of_memory<O: Sink, N: Sink>(out: &mut O, note: &mut N) -> Status
    ensures told { IsTold memory_told result
        (sink_view O.Sink out.old)
        (sink_view O.Sink out.new)
        (sink_view N.Sink note.old)
        (sink_view N.Sink note.new) }
    ensures stream { result ≡ Status.Stream →
        HasRisen (O.faults out.old) (O.faults out.new) ⊎ HasRisen (N.faults note.old) (N.faults note.new) }
    ensures status { result ≢ Status.Stream → result ≡ Status.Memory }
{
    no_memory().tell(out, note)
}
