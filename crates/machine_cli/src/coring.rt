ghost use Rattle.std.specs.Prelude.{◌≡◌, ◌≢◌, ◌⊎◌, ◌≤◌, length, OnErr, OnOk};
ghost use Rattle.definitions.specs.Disk.{HasRisen};
ghost use Rattle.definitions.specs.Zones.{top};
ghost use Rattle.dump_core.specs.Cores.{core_of, told_runs};
ghost use Rattle.command_kit.specs.Told.{FailsToPrint, IsPrinted, IsTold};
ghost use Rattle.command_kit.specs.Causes.{HasCause};
ghost use Rattle.swsusp_cli.specs.Streams.{streams_view};
ghost use Rattle.command_kit.specs.View.{DiskView, sink_view};
ghost use Rattle.machine_cli.specs.Cored.{Cores, core_told};

use byte_streams::{Sink, Source};
use command_kit::{Status, no_memory, print};
use dump_core::{told_runs, write_core};
use machine::Dump;
use page_core::{Failed, NoMemory};
use std::alloc::Global;
use swsusp_cli::dump_of_input;

/// Reads a dump to its end, and writes the core file of its machine's memory. No disk is used.
#[inline(never)]
pub fn core<I: Source, O: Sink, N: Sink>(
    alloc: Global,
    input: &mut I,
    out: &mut O,
    note: &mut N,
) -> Status
    ensures outcome { (disk : DiskView) → Cores
        (streams_view I.Source O.Sink N.Sink disk input.old out.old note.old)
        (streams_view I.Source O.Sink N.Sink disk input.new out.new note.new) result }
    ensures cause { HasCause (HasRisen (I.faults input.old) (I.faults input.new)
        ⊎ HasRisen (O.faults out.old) (O.faults out.new) ⊎ HasRisen (N.faults note.old) (N.faults note.new)) ⊥ result }
{
    let dump = match dump_of_input(alloc, input) {
        Ok(dump) => dump,
        Err(stop) => return stop.tell(out, note),
    };
    match told_runs(alloc, &dump) {
        Ok(runs) => tell_core(&dump, &runs, out, note),
        Err(NoMemory) => no_memory().tell(out, note),
    }
}

/// Prints the core file of a dump, and nothing as a note. If a sink fails, the status is `Stream`, and `sink fault` is
/// tried as a note.
fn tell_core<O: Sink, N: Sink>(
    dump: &Dump,
    runs: &[(u32, u32)],
    out: &mut O,
    note: &mut N,
) -> Status
    requires frames { length dump.now.frames ≡ top dump.now.hw.zones }
    requires runs { runs.now ≡ told_runs dump.now.hw dump.now.frames }
    ensures told { IsTold (core_told dump.now.hw dump.now.frames) result
        (sink_view O.Sink out.old)
        (sink_view O.Sink out.new)
        (sink_view N.Sink note.old)
        (sink_view N.Sink note.new) }
    ensures stream { result ≡ Status.Stream →
        HasRisen (O.faults out.old) (O.faults out.new) ⊎ HasRisen (N.faults note.old) (N.faults note.new) }
    ensures status { result ≢ Status.Stream → result ≡ Status.Done }
{
    if print_core(dump, runs, out).is_err() {
        let _ = print(note, b"sink fault\n");
        return Status::Stream;
    }
    if print(note, b"").is_err() {
        return Status::Stream;
    }
    Status::Done
}

/// Writes the core file of a dump to its end, and flushes.
fn print_core<S: Sink>(dump: &Dump, runs: &[(u32, u32)], sink: &mut S) -> Result<(), Failed>
    requires frames { length dump.now.frames ≡ top dump.now.hw.zones }
    requires runs { runs.now ≡ told_runs dump.now.hw dump.now.frames }
    ensures printed { OnOk result (IsPrinted (core_of dump.now.hw dump.now.frames)
        (sink_view S.Sink sink.old)
        (sink_view S.Sink sink.new)) }
    ensures failed { OnErr result (FailsToPrint (core_of dump.now.hw dump.now.frames)
        (sink_view S.Sink sink.old)
        (sink_view S.Sink sink.new)) }
    ensures counted { S.faults sink.old ≤ S.faults sink.new }
    ensures cause { OnErr result (HasRisen (S.faults sink.old) (S.faults sink.new)) }
{
    write_core(dump, runs, sink)?;
    sink.flush()
}
