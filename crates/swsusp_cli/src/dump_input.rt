ghost use Rattle.std.specs.Prelude.{◌≡◌, ◌++◌, ◌≤◌, ℕ, List, length, true, Some, Ok, Err, IsOk, IfOk, IfErr};
ghost use Rattle.definitions.specs.Disk.{HasRisen};
ghost use Rattle.definitions.specs.Streams.{IsUsedUp};
ghost use Rattle.dump_file.specs.Dump.{dump_of};
ghost use Rattle.plain_machine.specs.Machine.{Fits, IsHardware};
ghost use Rattle.world_core.specs.StandsFor.{IsNewWorld, hardware_of};
ghost use Rattle.command_kit.specs.Causes.{HasCause};
ghost use Rattle.command_kit.specs.AnswerOf.{told_by};
ghost use Rattle.swsusp_cli.specs.Dumps.{dump_told, kind_text, stopped_told, succeeded_told};
ghost use Rattle.swsusp_cli.specs.Stops.{LacksDump};

use crate::stop::Stop;
use byte_streams::{Line, Source};
use command_core::Ended;
use command_kit::{Answer, Status};
use dump_file::{DumpFault, DumpKind, read_dump};
use machine::Dump;
use page_core::NoMemory;
use script::line_of;
use std::alloc::Global;
use world_core::World;

/// Reads a dump to its end.
pub fn dump_of_input<I: Source>(alloc: Global, input: &mut I) -> Result<Dump, Stop>
    ensures dump { IfOk result (λ d. (bytes : List ℕ) → I.remaining input.old ≡ Some bytes →
        dump_of bytes ≡ Ok (record { hw = d.hw; memory = d.frames })) }
    ensures end { IsOk result → IsUsedUp (I.remaining input.new) }
    ensures fits { IfOk result (λ d. Fits d.hw d.frames) }
    ensures lacks { IfErr result (LacksDump (I.remaining input.old) (I.remaining input.new)) }
    ensures cause { result ≡ Err Stop.Source → HasRisen (I.faults input.old) (I.faults input.new) }
    ensures counted { I.faults input.old ≤ I.faults input.new }
{
    Ok(read_dump(alloc, input)?)
}

/// Makes a new machine that keeps the memory of its dump.
pub fn machine_of(alloc: Global, dump: Dump) -> Result<World, NoMemory>
    requires { Fits dump.hw dump.frames }
    ensures hardware { IfOk result (λ world. IsHardware (hardware_of world)) }
    ensures is { IfOk result (λ world. hardware_of world ≡ dump.hw) }
    ensures frames { IfOk result (λ world. world.frames ≡ dump.frames) }
    ensures new { IfOk result (λ world. IsNewWorld (hardware_of world) (Some world.frames) world) }
{
    dump.hw.is_hardware();
    World::from_dump(alloc, dump)
}

/// Returns the answer to an input that is no dump.
pub fn no_dump(fault: DumpFault) -> Answer
    ensures told { told_by result ≡ dump_told fault }
    ensures status { result.status ≡ Status.Input }
{
    let mut note = Line::new();
    note.put(b"dump ");
    put_kind(&mut note, fault.kind);
    note.put_number(fault.at);
    note.put(b"\n");
    Answer {
        status: Status::Input,
        out: Line::new(),
        note,
    }
}

/// Adds a dump's kind of fault, and what its place counts.
fn put_kind(line: &mut Line, kind: DumpKind)
    requires { length line.old ≡ 5 }
    ensures added { line.new ≡ line.old ++ kind_text kind }
    ensures len { length line.new ≤ 20 }
{
    line.put(match kind {
        DumpKind::Short => b"Short byte ",
        DumpKind::Magic => b"Magic byte ",
        DumpKind::Header => b"Header byte ",
        DumpKind::Zone => b"Zone byte ",
        DumpKind::Extent => b"Extent byte ",
        DumpKind::Frame => b"Frame byte ",
        DumpKind::Order => b"Order byte ",
        DumpKind::Extra => b"Extra byte ",
        DumpKind::Tables => b"Tables frame ",
    });
}

/// Returns the answer to an operation that succeeded: its last reply, on out.
pub fn succeeded(ended: &Ended) -> Answer
    ensures told { told_by result ≡ succeeded_told ended.now.reply }
    ensures status { result.status ≡ Status.Done }
{
    let mut out = Line::new();
    line_of(&ended.reply, &mut out);
    Answer {
        status: Status::Done,
        out,
        note: Line::new(),
    }
}

/// Returns the answer to an operation that didn't succeed: its last reply, as a note.
pub fn stopped(ended: &Ended) -> Answer
    ensures told { told_by result ≡ stopped_told ended.now }
    ensures cause { HasCause ⊥ (ended.now.failed ≡ true) result.status }
{
    let mut note = Line::new();
    line_of(&ended.reply, &mut note);
    Answer {
        status: if ended.failed {
            Status::Device
        } else {
            Status::Refused
        },
        out: Line::new(),
        note,
    }
}
