ghost use Rattle.std.specs.Prelude.{◌≡◌, ◌≢◌, ◌⊎◌};
ghost use Rattle.definitions.specs.Disk.{HasRisen};
ghost use Rattle.swsusp_cli.specs.Exports.{Exports};
ghost use Rattle.command_kit.specs.Causes.{HasCause};
ghost use Rattle.swsusp_cli.specs.Streams.{streams_view};
ghost use Rattle.command_kit.specs.View.{DiskView, sink_view};

use crate::dump_input::dump_of_input;
use byte_streams::{Line, Sink, Source, put_all};
use command_kit::{Answer, Status, no_memory, print};
use frame_sets::Bitmap;
use frame_table::{View, mark_all};
use machine::Dump;
use page_core::{Failed, NoMemory};
use std::alloc::Global;
use stream_out::{SlotsInUse, StreamOut};

/// The number of bytes of the stream that are written at a time.
const PIECE: usize = 65536;

/// Reads a dump to its end, and writes the image of its memory as a stream of bytes. No disk is used.
#[inline(never)]
pub fn export_dump<I: Source, O: Sink, N: Sink>(
    alloc: Global,
    input: &mut I,
    out: &mut O,
    note: &mut N,
) -> Status
    ensures outcome { (disk : DiskView) → Exports
        (streams_view I.Source O.Sink N.Sink disk input.old out.old note.old)
        (streams_view I.Source O.Sink N.Sink disk input.new out.new note.new) result }
    ensures cause { HasCause (HasRisen (I.faults input.old) (I.faults input.new)
        ⊎ HasRisen (O.faults out.old) (O.faults out.new) ⊎ HasRisen (N.faults note.old) (N.faults note.new)) ⊥ result }
{
    let dump = match dump_of_input(alloc, input) {
        Ok(dump) => dump,
        Err(stop) => return stop.tell(out, note),
    };
    let saveable = match saveable_set(alloc, &dump) {
        Ok(saveable) => saveable,
        Err(NoMemory) => return no_memory().tell(out, note),
    };
    let mut piece = match empty_piece(alloc) {
        Ok(piece) => piece,
        Err(NoMemory) => return no_memory().tell(out, note),
    };
    match StreamOut::begin(&dump.frames, &dump.hw, &saveable) {
        Ok(mut stream) => tell_stream(&mut stream, &mut piece, out, note),
        Err(refusal) => in_use(refusal).tell(out, note),
    }
}

ghost use Rattle.std.specs.Prelude.{◌<◌, IfOk, vec_len};
ghost use Rattle.plain_machine.specs.Machine.{Fits};
ghost use Rattle.stream_out.specs.Pages.{IsSaveableSet};

/// Returns the set of a dump's saveable page frames.
fn saveable_set(alloc: Global, dump: &Dump) -> Result<Bitmap, NoMemory>
    requires { Fits dump.now.hw dump.now.frames }
    ensures set { IfOk result (IsSaveableSet dump.now.hw dump.now.frames) }
{
    let zones = dump.hw.zones();
    let mut set = Bitmap::create(alloc, zones)?;
    let view = View {
        frames: &dump.frames,
        zones,
        table: dump.hw.frame_table(),
    };
    mark_all(&view, &mut set);
    Ok(set)
}

fn empty_piece(alloc: Global) -> Result<Vec<u8>, NoMemory>
    ensures { IfOk result (λ piece. 0 < vec_len piece) }
{
    match Vec::from_elem(alloc, 0, PIECE) {
        Ok(piece) => Ok(piece),
        Err(_) => Err(NoMemory),
    }
}

ghost use Rattle.command_kit.specs.AnswerOf.{told_by};
ghost use Rattle.swsusp_cli.specs.Exports.{slots_told};

/// Returns the answer to a dump in which a task has a slot.
fn in_use(refusal: SlotsInUse) -> Answer
    ensures told { told_by result ≡ slots_told refusal.slot }
    ensures status { result.status ≡ Status.Refused }
{
    let mut note = Line::new();
    note.put(b"slots in use ");
    note.put_number(u64::from(refusal.slot));
    note.put(b"\n");
    Answer {
        status: Status::Refused,
        out: Line::new(),
        note,
    }
}

ghost use Rattle.std.specs.Prelude.{◌≤◌, length, [], OnOk, OnErr};
ghost use Rattle.definitions.specs.Streams.{TakesAll, TakesFront};
ghost use Rattle.command_kit.specs.Told.{FailsToPrint, IsPrinted, IsTold};

/// Writes a stream to out, and nothing to note.
fn tell_stream<O: Sink, N: Sink>(
    stream: &mut StreamOut<'_>,
    piece: &mut [u8],
    out: &mut O,
    note: &mut N,
) -> Status
    requires { 0 < length piece.old }
    ensures told { IsTold (record { status = Status.Done; out = stream.old; note = [] }) result
        (sink_view O.Sink out.old)
        (sink_view O.Sink out.new)
        (sink_view N.Sink note.old)
        (sink_view N.Sink note.new) }
    ensures stream { result ≡ Status.Stream →
        HasRisen (O.faults out.old) (O.faults out.new) ⊎ HasRisen (N.faults note.old) (N.faults note.new) }
    ensures status { result ≢ Status.Stream → result ≡ Status.Done }
{
    if print_stream(stream, piece, out).is_err() {
        let _ = print(note, b"sink fault\n");
        return Status::Stream;
    }
    if print(note, b"").is_err() {
        return Status::Stream;
    }
    Status::Done
}

/// Writes a stream to its end, and flushes.
fn print_stream<S: Sink>(
    stream: &mut StreamOut<'_>,
    piece: &mut [u8],
    sink: &mut S,
) -> Result<(), Failed>
    requires { 0 < length piece.old }
    ensures printed { OnOk result (IsPrinted stream.old
        (sink_view S.Sink sink.old)
        (sink_view S.Sink sink.new)) }
    ensures failed { OnErr result (FailsToPrint stream.old
        (sink_view S.Sink sink.old)
        (sink_view S.Sink sink.new)) }
    ensures counted { S.faults sink.old ≤ S.faults sink.new }
    ensures cause { OnErr result (HasRisen (S.faults sink.old) (S.faults sink.new)) }
{
    put_stream(stream, piece, sink)?;
    sink.flush()
}

/// Writes what is left of a stream, piece by piece.
fn put_stream<S: Sink>(
    stream: &mut StreamOut<'_>,
    piece: &mut [u8],
    sink: &mut S,
) -> Result<(), Failed>
    requires { 0 < length piece.old }
    ensures whole { OnOk result (TakesAll stream.old (S.taken sink.old) (S.taken sink.new)) }
    ensures front { TakesFront stream.old (S.taken sink.old) (S.taken sink.new) }
    ensures counted { S.faults sink.old ≤ S.faults sink.new }
    ensures cause { OnErr result (HasRisen (S.faults sink.old) (S.faults sink.new)) }
{
    'pieces: loop {
        let count = stream.next(piece);
        if count == 0 {
            return Ok(());
        }
        put_all(sink, &piece[..count])?;
    }
}
