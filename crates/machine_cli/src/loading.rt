ghost use Rattle.std.specs.Prelude.{◌⊎◌};
ghost use Rattle.definitions.specs.Disk.{HasRisen};
ghost use Rattle.machine_cli.specs.Freshened.{Freshens};
ghost use Rattle.command_kit.specs.Causes.{HasCause};
ghost use Rattle.swsusp_cli.specs.Streams.{streams_view};
ghost use Rattle.command_kit.specs.View.{DiskView};

use byte_streams::{Sink, Source};
use command_kit::{Status, no_memory};
use dump_tools::make_fresh;
use page_core::NoMemory;
use std::alloc::Global;
use swsusp_cli::{dump_of_input, tell_dump};

/// Reads a dump to its end, and writes the dump of its machine just after boot: a loader, into which an image can be
/// resumed. No disk is used.
#[inline(never)]
pub fn loader<I: Source, O: Sink, N: Sink>(
    alloc: Global,
    input: &mut I,
    out: &mut O,
    note: &mut N,
) -> Status
    ensures outcome { (disk : DiskView) → Freshens
        (streams_view I.Source O.Sink N.Sink disk input.old out.old note.old)
        (streams_view I.Source O.Sink N.Sink disk input.new out.new note.new) result }
    ensures cause { HasCause (HasRisen (I.faults input.old) (I.faults input.new)
        ⊎ HasRisen (O.faults out.old) (O.faults out.new) ⊎ HasRisen (N.faults note.old) (N.faults note.new)) ⊥ result }
{
    let mut dump = match dump_of_input(alloc, input) {
        Ok(dump) => dump,
        Err(stop) => return stop.tell(out, note),
    };
    match make_fresh(alloc, &mut dump) {
        Ok(()) => tell_dump(&dump.hw, &dump.frames, out, note),
        Err(NoMemory) => no_memory().tell(out, note),
    }
}
