ghost use Rattle.std.specs.Prelude.{◌≡◌, ◌≢◌, ◌↔◌, length, IfSome, IsNone, IsSome};
ghost use Rattle.definitions.specs.Disk.{Content};
ghost use Rattle.definitions.specs.Zones.{top};
ghost use Rattle.plain_machine.specs.Shows.{activity_in, runs, seen_frames};
ghost use Rattle.plain_machine.specs.State.{State};
ghost use Rattle.world_core.specs.StandsFor.{StandsFor, hardware_of};
ghost use Rattle.world_core.specs.declared.world.Core.TheVariants as core;
ghost use Rattle.machine_cli.specs.Made.{IsMade, idle_told};
ghost use Rattle.command_kit.specs.AnswerOf.{told_by};
ghost use Rattle.swsusp_cli.specs.Outcome.{HandsOutAtMost};
ghost use Rattle.swsusp_cli.specs.Causes.{HasCauseIn};
ghost use Rattle.command_kit.specs.View.{view};

use byte_streams::{Line, Sink, Source};
use command_kit::{Answer, Status};
use machine::Dump;
use sector_disk::Disk;
use std::alloc::Global;
use swsusp_cli::{begin, play_through, tell_dump};
use world_core::World;

/// Plays a script over a disk, and writes the memory of the machine that runs at its end as a dump. If none runs, a
/// note says so.
#[inline(never)]
pub fn make<I: Source, O: Sink, N: Sink, D: Disk>(
    alloc: Global,
    input: &mut I,
    out: &mut O,
    note: &mut N,
    disk: &mut D,
) -> Status
    ensures outcome { IsMade
        (view I.Source O.Sink N.Sink D.Disk input.old out.old note.old disk.old)
        (view I.Source O.Sink N.Sink D.Disk input.new out.new note.new disk.new) result }
    ensures cause { HasCauseIn
        (view I.Source O.Sink N.Sink D.Disk input.old out.old note.old disk.old)
        (view I.Source O.Sink N.Sink D.Disk input.new out.new note.new disk.new) result }
    ensures read { HandsOutAtMost 1048577 (I.remaining input.old) (I.remaining input.new) }
{
    let (script, mut world) = match begin(alloc, input, out, note, disk) {
        Ok(begun) => begun,
        Err(status) => return status,
    };
    let _ = play_through(&mut world, disk, script.events());
    match dump_of(world) {
        Some(dump) => tell_dump(&dump.hw, &dump.frames, out, note),
        None => idle().tell(out, note),
    }
}

/// Returns the machine of a world that runs. It has a frame of its own, since the world leaves its box.
#[inline(never)]
fn dump_of(world: Box<World>) -> Option<Dump>
    ensures runs { IsSome result ↔ (world.value.core ≡ core.Running) }
    ensures idle { IsNone result → (c : Content) (a : State) → StandsFor world.value c a → activity_in a ≢ runs }
    ensures hardware { IfSome result (λ dump. dump.hw ≡ hardware_of world.value) }
    ensures frames { IfSome result (λ dump. dump.frames ≡ seen_frames (hardware_of world.value) world.value.frames) }
    ensures size { IfSome result (λ dump. length dump.frames ≡ top dump.hw.zones) }
{
    Box::into_inner(world).into_dump()
}

/// Returns the answer that no machine runs.
fn idle() -> Answer
    ensures told { told_by result ≡ idle_told }
    ensures status { result.status ≡ Status.Refused }
{
    let mut note = Line::new();
    note.put(b"no machine runs\n");
    Answer {
        status: Status::Refused,
        out: Line::new(),
        note,
    }
}
