ghost use Rattle.std.specs.Prelude.{◌≡◌, ◌≢◌, ◌⊎◌, ◌≤◌, length, OnOk, OnErr};
ghost use Rattle.definitions.specs.Disk.{HasRisen};
ghost use Rattle.command_kit.specs.Told.{memory_told};
ghost use Rattle.command_kit.specs.AnswerOf.{told_by};
ghost use Rattle.command_kit.specs.Told.{IsPrinted, IsTold, FailsToPrint};
ghost use Rattle.command_kit.specs.View.{sink_view};

use crate::status::Status;
use byte_streams::{Line, Sink, put_all};
use page_core::Failed;

/// What a run ends with: a status, the text on out and the text on note.
#[derive(Drop)]
pub struct Answer {
    pub status: Status,
    pub out: Line,
    pub note: Line,
}

impl Answer {
    ghost use Rattle.command_kit.specs.AnswerOf.{told_by};
    ghost use Rattle.command_kit.specs.Told.{IsTold};

    /// Prints both texts. If a sink fails the status is `Stream`; if that is `out`, `sink fault` is tried as a note.
    pub fn tell<O: Sink, N: Sink>(&self, out: &mut O, note: &mut N) -> Status
        requires { self.now.status ≢ Status.Stream }
        ensures told { IsTold (told_by self.now) result
            (sink_view O.Sink out.old)
            (sink_view O.Sink out.new)
            (sink_view N.Sink note.old)
            (sink_view N.Sink note.new) }
        ensures stream { result ≡ Status.Stream →
            HasRisen (O.faults out.old) (O.faults out.new) ⊎ HasRisen (N.faults note.old) (N.faults note.new) }
        ensures status { result ≢ Status.Stream → result ≡ self.now.status }
    {
        tell(
            self.status,
            self.out.as_bytes(),
            self.note.as_bytes(),
            out,
            note,
        )
    }
}

/// Returns the answer of a run that was refused memory.
pub fn no_memory() -> Answer
    ensures told { told_by result ≡ memory_told }
    ensures status { result.status ≡ Status.Memory }
{
    let mut note = Line::new();
    note.put(b"no memory\n");
    Answer {
        status: Status::Memory,
        out: Line::new(),
        note,
    }
}

/// Prints a text on each output. If a sink fails the status is `Stream`; if that is `out`, `sink fault` is tried as a
/// note.
pub fn tell<O: Sink, N: Sink>(
    status: Status,
    text: &[u8],
    noted: &[u8],
    out: &mut O,
    note: &mut N,
) -> Status
    requires { status ≢ Status.Stream }
    ensures told { IsTold (record { status = status; out = text.now; note = noted.now }) result
        (sink_view O.Sink out.old)
        (sink_view O.Sink out.new)
        (sink_view N.Sink note.old)
        (sink_view N.Sink note.new) }
    ensures stream { result ≡ Status.Stream →
        HasRisen (O.faults out.old) (O.faults out.new) ⊎ HasRisen (N.faults note.old) (N.faults note.new) }
    ensures status { result ≢ Status.Stream → result ≡ status }
{
    if print(out, text).is_err() {
        let _ = print(note, b"sink fault\n");
        return Status::Stream;
    }
    if print(note, noted).is_err() {
        return Status::Stream;
    }
    status
}

/// Writes the whole text, and flushes.
pub fn print<S: Sink>(sink: &mut S, text: &[u8]) -> Result<(), Failed>
    ensures printed { OnOk result (IsPrinted text.now
        (sink_view S.Sink sink.old)
        (sink_view S.Sink sink.new)) }
    ensures failed { OnErr result (FailsToPrint text.now
        (sink_view S.Sink sink.old)
        (sink_view S.Sink sink.new)) }
    ensures counted { S.faults sink.old ≤ S.faults sink.new }
    ensures cause { OnErr result (HasRisen (S.faults sink.old) (S.faults sink.new)) }
{
    put_all(sink, text)?;
    sink.flush()
}
