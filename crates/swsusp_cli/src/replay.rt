ghost use Rattle.std.specs.Prelude.{◌≡◌, ◌≤◌, Ok, Err, IfOk, All, length};
ghost use Rattle.definitions.specs.Disk.{HasRisen};
ghost use Rattle.plain_machine.specs.Fitting.{IsFitting};
ghost use Rattle.command_kit.specs.AnswerOf.{told_by};
ghost use Rattle.swsusp_cli.specs.Outcome.{IsReplayed, fault_told};
ghost use Rattle.swsusp_cli.specs.Readied.{IsReadied};
ghost use Rattle.swsusp_cli.specs.Outcome.{HandsOutAtMost};
ghost use Rattle.swsusp_cli.specs.Replay.{unread_note};
ghost use Rattle.command_kit.specs.Told.{done};
ghost use Rattle.command_kit.specs.Told.{IsTried, sink_note};
ghost use Rattle.swsusp_cli.specs.Causes.{HasCauseIn};
ghost use Rattle.command_kit.specs.View.{sink_view, view};

use crate::beginning::begin;
use crate::playing::play;
use crate::reading::read_script;
use crate::stop::Stop;
use byte_streams::{Line, Sink, Source};
use command_kit::{Answer, Status, print};
use page_core::Failed;
use script::{Script, ScriptFault, parse};
use sector_disk::Disk;
use std::alloc::Global;

/// Reads a script, formats the area that it names at the block of its first slot, and plays its events.
#[inline(never)]
pub fn replay<I: Source, O: Sink, N: Sink, D: Disk>(
    alloc: Global,
    input: &mut I,
    out: &mut O,
    note: &mut N,
    disk: &mut D,
) -> Status
    ensures outcome { IsReplayed
        (view I.Source O.Sink N.Sink D.Disk input.old out.old note.old disk.old)
        (view I.Source O.Sink N.Sink D.Disk input.new out.new note.new disk.new) result }
    ensures cause { HasCauseIn
        (view I.Source O.Sink N.Sink D.Disk input.old out.old note.old disk.old)
        (view I.Source O.Sink N.Sink D.Disk input.new out.new note.new disk.new) result }
    ensures read { HandsOutAtMost 1048577 (I.remaining input.old) (I.remaining input.new) }
{
    let (script, mut world) = match begin(alloc, input, out, note, disk) {
        Ok(begun) => begun,
        Err(status) => return status,
    };
    match play(&mut world, disk, out, script.events()) {
        Ok(()) => done().tell(out, note),
        Err(Failed) => cut_off(note),
    }
}

/// Reads a script to its end, and parses it.
pub fn parse_input<I: Source>(alloc: Global, input: &mut I) -> Result<Script, Stop>
    ensures ready { IsReadied (I.remaining input.old) (I.remaining input.new) result }
    ensures few_bad { IfOk result (λ script. length script.bad ≤ 630) }
    ensures fits { IfOk result (λ script. All IsFitting script.events) }
    ensures few { IfOk result (λ script. length script.events ≤ 100000) }
    ensures read { HandsOutAtMost 1048577 (I.remaining input.old) (I.remaining input.new) }
    ensures stream { result ≡ Err Stop.Source → HasRisen (I.faults input.old) (I.faults input.new) }
    ensures counted { I.faults input.old ≤ I.faults input.new }
{
    let bytes = read_script(alloc, input)?;
    Ok(parse(alloc, bytes.as_slice())?)
}

/// Tries to note that the source failed, once.
pub fn unread<N: Sink>(note: &mut N) -> Status
    ensures status { result ≡ Status.Stream }
    ensures note { IsTried unread_note
        (sink_view N.Sink note.old)
        (sink_view N.Sink note.new) }
{
    let _ = print(note, b"source fault\n");
    Status::Stream
}

/// Tries to note that out failed, once.
pub fn cut_off<N: Sink>(note: &mut N) -> Status
    ensures status { result ≡ Status.Stream }
    ensures note { IsTried sink_note
        (sink_view N.Sink note.old)
        (sink_view N.Sink note.new) }
{
    let _ = print(note, b"sink fault\n");
    Status::Stream
}

/// Returns the answer once all events are played: nothing is left to say.
fn done() -> Answer
    ensures told { told_by result ≡ done }
    ensures status { result.status ≡ Status.Done }
{
    Answer {
        status: Status::Done,
        out: Line::new(),
        note: Line::new(),
    }
}

/// Returns the answer to an input that is no script.
pub fn no_script(fault: ScriptFault) -> Answer
    ensures told { told_by result ≡ fault_told fault }
    ensures status { result.status ≡ Status.Input }
{
    let mut note = Line::new();
    note.put(b"script line ");
    note.put_number(u64::from(fault.line));
    note.put(b" ");
    note.put(fault.kind.name().as_bytes());
    note.put(b"\n");
    Answer {
        status: Status::Input,
        out: Line::new(),
        note,
    }
}
