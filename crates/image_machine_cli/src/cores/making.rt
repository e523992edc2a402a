ghost use Rattle.std.specs.Prelude.{◌≡◌, ◌≢◌, ◌⊎◌};
ghost use Rattle.definitions.specs.Disk.{HasRisen};
ghost use Rattle.command_kit.specs.Causes.{HasCause};
ghost use Rattle.command_kit.specs.View.{sink_view};
ghost use Rattle.command_kit.specs.Told.{IsTold};
ghost use Rattle.core_machine.specs.declared.stop.Stop.TheVariants as stop;
ghost use Rattle.image_machine_cli.specs.Given.{GivesOfCore, IsWhyTold};
ghost use Rattle.image_machine_cli.specs.Loads.{refused};

use crate::cores::faults::fault_line;
use crate::limits::limit_line;
use byte_streams::{Line, Sink, Source};
use command_kit::{Status, no_memory, tell};
use core_machine::{Stop, machine_of_core};
use std::alloc::Global;
use swsusp_cli::{Stop as InputStop, tell_dump};

/// Reads a core file of a machine's memory, and prints the dump of a machine with that memory. If there is none, the
/// note says why. No disk is used.
#[inline(never)]
pub fn from_core<I: Source, O: Sink, N: Sink>(
    alloc: Global,
    input: &mut I,
    slots: Option<u32>,
    out: &mut O,
    note: &mut N,
) -> Status
    ensures outcome { GivesOfCore (I.remaining input.old) slots result
        (sink_view O.Sink out.old)
        (sink_view O.Sink out.new)
        (sink_view N.Sink note.old)
        (sink_view N.Sink note.new) }
    ensures cause { HasCause (HasRisen (I.faults input.old) (I.faults input.new)
        ⊎ HasRisen (O.faults out.old) (O.faults out.new) ⊎ HasRisen (N.faults note.old) (N.faults note.new)) ⊥ result }
{
    match machine_of_core(alloc, input, slots) {
        Ok(dump) => tell_dump(&dump.hw, &dump.frames, out, note),
        Err(why) => tell_why(why, out, note),
    }
}

/// Prints why there is no dump.
fn tell_why<O: Sink, N: Sink>(why: Stop, out: &mut O, note: &mut N) -> Status
    ensures told { IsWhyTold why result
        (sink_view O.Sink out.old)
        (sink_view O.Sink out.new)
        (sink_view N.Sink note.old)
        (sink_view N.Sink note.new) }
    ensures cause { HasCause ((why ≡ stop.Source)
        ⊎ HasRisen (O.faults out.old) (O.faults out.new) ⊎ HasRisen (N.faults note.old) (N.faults note.new)) ⊥ result }
{
    match why {
        Stop::Core(fault) => refuse(&fault_line(&fault), out, note),
        Stop::Limit(limit) => refuse(&limit_line(&limit), out, note),
        Stop::Source => InputStop::Source.tell(out, note),
        Stop::Memory => no_memory().tell(out, note),
    }
}

/// Ends the command with a line as the note.
fn refuse<O: Sink, N: Sink>(line: &Line, out: &mut O, note: &mut N) -> Status
    ensures told { IsTold (refused line.now) result
        (sink_view O.Sink out.old)
        (sink_view O.Sink out.new)
        (sink_view N.Sink note.old)
        (sink_view N.Sink note.new) }
    ensures stream { result ≡ Status.Stream →
        HasRisen (O.faults out.old) (O.faults out.new) ⊎ HasRisen (N.faults note.old) (N.faults note.new) }
    ensures status { result ≢ Status.Stream → result ≡ Status.Refused }
{
    tell(Status::Refused, b"", line.as_bytes(), out, note)
}
