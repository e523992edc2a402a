ghost use Rattle.std.specs.Prelude.{◌≡◌, ◌≢◌, ◌⊎◌, ◌≤◌, length, OnOk, OnErr};
ghost use Rattle.definitions.specs.Disk.{HasRisen};
ghost use Rattle.definitions.specs.Zones.{top};
ghost use Rattle.machine_cli.specs.Shown.{Shows, facts_told};
ghost use Rattle.dump_tools.specs.Texts.{facts_text};
ghost use Rattle.command_kit.specs.Told.{FailsToPrint, IsPrinted, IsTold};
ghost use Rattle.command_kit.specs.Causes.{HasCause};
ghost use Rattle.swsusp_cli.specs.Streams.{streams_view};
ghost use Rattle.command_kit.specs.View.{DiskView, sink_view};

use byte_streams::{Sink, Source};
use command_kit::{Status, print};
use dump_tools::show;
use machine::Dump;
use page_core::Failed;
use std::alloc::Global;
use swsusp_cli::dump_of_input;

/// Reads a dump to its end, and prints its facts: hardware, and who has the page frames and the slots. No disk is used.
#[inline(never)]
pub fn show_facts<I: Source, O: Sink, N: Sink>(
    alloc: Global,
    input: &mut I,
    out: &mut O,
    note: &mut N,
) -> Status
    ensures outcome { (disk : DiskView) → Shows
        (streams_view I.Source O.Sink N.Sink disk input.old out.old note.old)
        (streams_view I.Source O.Sink N.Sink disk input.new out.new note.new) result }
    ensures cause { HasCause (HasRisen (I.faults input.old) (I.faults input.new)
        ⊎ HasRisen (O.faults out.old) (O.faults out.new) ⊎ HasRisen (N.faults note.old) (N.faults note.new)) ⊥ result }
{
    let dump = match dump_of_input(alloc, input) {
        Ok(dump) => dump,
        Err(stop) => return stop.tell(out, note),
    };
    tell_facts(&dump, out, note)
}

/// Prints the facts of a dump, and nothing as a note. If a sink fails, the status is `Stream`, and `sink fault` is
/// tried as a note.
fn tell_facts<O: Sink, N: Sink>(dump: &Dump, out: &mut O, note: &mut N) -> Status
    requires frames { length dump.now.frames ≡ top dump.now.hw.zones }
    ensures told { IsTold (facts_told dump.now.hw dump.now.frames) result
        (sink_view O.Sink out.old)
        (sink_view O.Sink out.new)
        (sink_view N.Sink note.old)
        (sink_view N.Sink note.new) }
    ensures stream { result ≡ Status.Stream →
        HasRisen (O.faults out.old) (O.faults out.new) ⊎ HasRisen (N.faults note.old) (N.faults note.new) }
    ensures status { result ≢ Status.Stream → result ≡ Status.Done }
{
    if print_facts(dump, out).is_err() {
        let _ = print(note, b"sink fault\n");
        return Status::Stream;
    }
    if print(note, b"").is_err() {
        return Status::Stream;
    }
    Status::Done
}

/// Prints the facts of a dump to their end, and flushes.
fn print_facts<S: Sink>(dump: &Dump, sink: &mut S) -> Result<(), Failed>
    requires frames { length dump.now.frames ≡ top dump.now.hw.zones }
    ensures printed { OnOk result (IsPrinted (facts_text dump.now.hw dump.now.frames)
        (sink_view S.Sink sink.old)
        (sink_view S.Sink sink.new)) }
    ensures failed { OnErr result (FailsToPrint (facts_text dump.now.hw dump.now.frames)
        (sink_view S.Sink sink.old)
        (sink_view S.Sink sink.new)) }
    ensures counted { S.faults sink.old ≤ S.faults sink.new }
    ensures cause { OnErr result (HasRisen (S.faults sink.old) (S.faults sink.new)) }
{
    show(sink, dump)?;
    sink.flush()
}
