ghost use Rattle.std.specs.Prelude.{◌≡◌, ◌≢◌, ◌⊎◌, ◌≤◌, length, true, OnOk, OnErr};
ghost use Rattle.definitions.specs.Disk.{HasRisen};
ghost use Rattle.swsusp_cli.specs.Loads.{Resumes};
ghost use Rattle.definitions.specs.Zones.{top};
ghost use Rattle.dump_file.specs.Written.{dump_bytes};
ghost use Rattle.swsusp_cli.specs.Loads.{is_resumed, resume_told, written_told};
ghost use Rattle.command_kit.specs.Told.{FailsToPrint, IsPrinted, IsTold};
ghost use Rattle.swsusp_cli.specs.Causes.{HasCauseIn};
ghost use Rattle.command_kit.specs.Causes.{HasCause};
ghost use Rattle.command_kit.specs.View.{sink_view, view};

use crate::dump_input::{dump_of_input, machine_of, stopped};
use byte_streams::{Sink, Source};
use command_core::{Ended, resume};
use command_kit::{Status, no_memory, print};
use dump_file::write_dump;
use frame_arena::Frames;
use machine::Hardware;
use page_core::{Failed, NoMemory};
use plain_machine::{IdentCheck, Reply};
use sector_disk::Disk;
use std::alloc::Global;

/// Reads a loader's dump to its end, resumes the image on the disk into its machine, and writes the dump of what was
/// restored.
#[inline(never)]
pub fn resume_dump<I: Source, O: Sink, N: Sink, D: Disk>(
    alloc: Global,
    check: IdentCheck,
    input: &mut I,
    out: &mut O,
    note: &mut N,
    disk: &mut D,
) -> Status
    ensures outcome { Resumes D.Disk disk.old disk.new check
        (view I.Source O.Sink N.Sink D.Disk input.old out.old note.old disk.old)
        (view I.Source O.Sink N.Sink D.Disk input.new out.new note.new disk.new) result }
    ensures cause { HasCauseIn
        (view I.Source O.Sink N.Sink D.Disk input.old out.old note.old disk.old)
        (view I.Source O.Sink N.Sink D.Disk input.new out.new note.new disk.new) result }
{
    let dump = match dump_of_input(alloc, input) {
        Ok(dump) => dump,
        Err(stop) => return stop.tell(out, note),
    };
    let hw = dump.hw;
    let mut world = match machine_of(alloc, dump) {
        Ok(world) => world,
        Err(NoMemory) => return no_memory().tell(out, note),
    };
    let ended = resume(&mut world, disk, check);
    tell_end(&hw, world.frames(), &ended, out, note)
}

/// Prints how a resume has ended: if it succeeded, the dump of memory on out.
fn tell_end<O: Sink, N: Sink>(
    hw: &Hardware,
    frames: &Frames,
    ended: &Ended,
    out: &mut O,
    note: &mut N,
) -> Status
    requires frames { length frames.now ≡ top hw.now.zones }
    ensures told { IsTold (resume_told hw.now frames.now ended.now) result
        (sink_view O.Sink out.old)
        (sink_view O.Sink out.new)
        (sink_view N.Sink note.old)
        (sink_view N.Sink note.new) }
    ensures cause { HasCause
        (HasRisen (O.faults out.old) (O.faults out.new) ⊎ HasRisen (N.faults note.old) (N.faults note.new))
        (ended.now.failed ≡ true) result }
{
    if !is_resumed(&ended.reply) {
        return stopped(ended).tell(out, note);
    }
    tell_dump(hw, frames, out, note)
}

/// Prints the dump of a machine, and nothing as a note. If a sink fails, the status is `Stream`; if that sink is out,
/// `sink fault` is tried as a note.
pub fn tell_dump<O: Sink, N: Sink>(
    hw: &Hardware,
    frames: &Frames,
    out: &mut O,
    note: &mut N,
) -> Status
    requires frames { length frames.now ≡ top hw.now.zones }
    ensures told { IsTold (written_told hw.now frames.now) result
        (sink_view O.Sink out.old)
        (sink_view O.Sink out.new)
        (sink_view N.Sink note.old)
        (sink_view N.Sink note.new) }
    ensures stream { result ≡ Status.Stream →
        HasRisen (O.faults out.old) (O.faults out.new) ⊎ HasRisen (N.faults note.old) (N.faults note.new) }
    ensures status { result ≢ Status.Stream → result ≡ Status.Done }
{
    if print_dump(hw, frames, out).is_err() {
        let _ = print(note, b"sink fault\n");
        return Status::Stream;
    }
    if print(note, b"").is_err() {
        return Status::Stream;
    }
    Status::Done
}

fn is_resumed(reply: &Reply) -> bool
    ensures { result ≡ is_resumed reply.now }
{
    matches!(reply, Reply::Resumed { .. })
}

/// Writes the dump of memory to its end, and flushes.
fn print_dump<S: Sink>(hw: &Hardware, frames: &Frames, sink: &mut S) -> Result<(), Failed>
    requires frames { length frames.now ≡ top hw.now.zones }
    ensures printed { OnOk result (IsPrinted (dump_bytes hw.now frames.now)
        (sink_view S.Sink sink.old)
        (sink_view S.Sink sink.new)) }
    ensures failed { OnErr result (FailsToPrint (dump_bytes hw.now frames.now)
        (sink_view S.Sink sink.old)
        (sink_view S.Sink sink.new)) }
    ensures counted { S.faults sink.old ≤ S.faults sink.new }
    ensures cause { OnErr result (HasRisen (S.faults sink.old) (S.faults sink.new)) }
{
    write_dump(sink, hw, frames)?;
    sink.flush()
}
