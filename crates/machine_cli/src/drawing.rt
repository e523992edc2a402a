ghost use Rattle.std.specs.Prelude.{◌≡◌, ◌⊎◌, ◌≤◌, ◌<◌, ◌^◌, ℕ, All, List, length, take, MatchResult, OnErr, OnOk};
ghost use Rattle.definitions.specs.Disk.{HasRisen};
ghost use Rattle.definitions.specs.Streams.{TakesAll, TakesFront};
ghost use Rattle.plain_machine.specs.Fitting.{IsFitting};
ghost use Rattle.plain_machine.specs.declared.reply.Reply.{Reply as PlainReply};
ghost use Rattle.run_picture.specs.Lanes.{after, first};
ghost use Rattle.run_picture.specs.Picture.{column, columns, picture, pictured};
ghost use Rattle.run_picture.specs.Telling.{told_by};
ghost use Rattle.world_core.specs.StandsFor.{IsOff, blocks_of, hardware_of};
ghost use Rattle.swsusp_cli.specs.Causes.{HasCauseIn};
ghost use Rattle.command_kit.specs.View.{disk_view, view};
ghost use Rattle.swsusp_cli.specs.Playing.{HasPlayed};
ghost use Rattle.swsusp_cli.specs.Outcome.{HandsOutAtMost};
ghost use Rattle.machine_cli.specs.Drawn.{IsDrawn};

use byte_streams::{Line, Sink, Source};
use command_kit::{Status, tell};
use page_core::Failed;
use plain_machine::{Event, Reply};
use run_picture::{Lanes, put_column, put_foot, put_head};
use script::line_of;
use sector_disk::Disk;
use std::alloc::Global;
use swsusp_cli::{begin, cut_off};
use world_core::World;

/// Plays a script over a disk, and writes a picture of what happens, event by event.
#[inline(never)]
pub fn draw<I: Source, O: Sink, N: Sink, D: Disk>(
    alloc: Global,
    input: &mut I,
    out: &mut O,
    note: &mut N,
    disk: &mut D,
) -> Status
    ensures outcome { IsDrawn
        (view I.Source O.Sink N.Sink D.Disk input.old out.old note.old disk.old)
        (view I.Source O.Sink N.Sink D.Disk input.new out.new note.new disk.new) result }
    ensures cause { HasCauseIn
        (view I.Source O.Sink N.Sink D.Disk input.old out.old note.old disk.old)
        (view I.Source O.Sink N.Sink D.Disk input.new out.new note.new disk.new) result }
    ensures read { HandsOutAtMost 1048577 (I.remaining input.old) (I.remaining input.new) }
{
    let (script, mut world) = match begin(alloc, input, out, note, disk) {
        Ok(begun) => begun,
        Err(status) => return status,
    };
    match draw_run(&mut world, disk, out, script.events()) {
        Ok(()) => tell(Status::Done, b"", b"", out, note),
        Err(Failed) => cut_off(note),
    }
}

/// Plays events, and draws the whole picture of them.
fn draw_run<D: Disk, O: Sink>(
    world: &mut World,
    disk: &mut D,
    out: &mut O,
    events: &[Event],
) -> Result<(), Failed>
    requires fits { All IsFitting events.now }
    requires few { length events.now ≤ 100000 }
    requires blocks { IsOff world.old ⊎ (D.block_count disk.old ≡ blocks_of world.old) }
    ensures drawn { MatchResult result
        (λ _. (replies : List PlainReply) × HasPlayed world.old world.new events.now replies
        (disk_view D.Disk disk.old)
        (disk_view D.Disk disk.new)
        × TakesAll (picture events.now replies) (O.taken out.old) (O.taken out.new))
        (λ _. (k : ℕ) × (replies : List PlainReply) × HasPlayed world.old world.new (take k events.now) replies
        (disk_view D.Disk disk.old)
        (disk_view D.Disk disk.new)
        × TakesFront (pictured (length events.now) (take k events.now) replies) (O.taken out.old) (O.taken out.new)) }
    ensures stream { OnErr result (HasRisen (O.faults out.old) (O.faults out.new)) }
    ensures stream_faults { O.faults out.old ≤ O.faults out.new }
    ensures hardware { hardware_of world.new ≡ hardware_of world.old }
    ensures blocks { IsOff world.new ⊎ (D.block_count disk.new ≡ blocks_of world.new) }
{
    match put_head(out, events.len() as u32) {
        Ok(()) => {}
        Err(Failed) => return Err(Failed),
    }
    match draw_events(world, disk, out, events) {
        Ok(()) => {}
        Err(Failed) => return Err(Failed),
    }
    match put_foot(out) {
        Ok(()) => Ok(()),
        Err(Failed) => Err(Failed),
    }
}

/// Plays events, and draws each event's column before the next event.
fn draw_events<D: Disk, O: Sink>(
    world: &mut World,
    disk: &mut D,
    out: &mut O,
    events: &[Event],
) -> Result<(), Failed>
    requires fits { All IsFitting events.now }
    requires few { length events.now ≤ 100000 }
    requires blocks { IsOff world.old ⊎ (D.block_count disk.old ≡ blocks_of world.old) }
    ensures drawn { MatchResult result
        (λ _. (replies : List PlainReply) × HasPlayed world.old world.new events.now replies
        (disk_view D.Disk disk.old)
        (disk_view D.Disk disk.new)
        × TakesAll (columns first events.now replies) (O.taken out.old) (O.taken out.new))
        (λ _. (k : ℕ) × (replies : List PlainReply) × HasPlayed world.old world.new (take k events.now) replies
        (disk_view D.Disk disk.old)
        (disk_view D.Disk disk.new)
        × TakesFront (columns first (take k events.now) replies) (O.taken out.old) (O.taken out.new)) }
    ensures stream { OnErr result (HasRisen (O.faults out.old) (O.faults out.new)) }
    ensures stream_faults { O.faults out.old ≤ O.faults out.new }
    ensures hardware { hardware_of world.new ≡ hardware_of world.old }
    ensures blocks { IsOff world.new ⊎ (D.block_count disk.new ≡ blocks_of world.new) }
{
    let mut lanes = Lanes::new();
    for event in events {
        let reply = world.event(disk, *event);
        match put_event(out, &mut lanes, event, &reply) {
            Ok(()) => {}
            Err(Failed) => return Err(Failed),
        }
    }
    Ok(())
}

/// Draws the column of an event with its reply.
fn put_event<O: Sink>(
    out: &mut O,
    lanes: &mut Lanes,
    event: &Event,
    reply: &Reply,
) -> Result<(), Failed>
    requires few { lanes.old.column < 2 ^ 27 }
    requires fits { IsFitting event.now }
    ensures lanes { lanes.new ≡ after lanes.old event.now (told_by reply.now) }
    ensures whole { OnOk result (TakesAll (column lanes.old event.now reply.now) (O.taken out.old) (O.taken out.new)) }
    ensures front { TakesFront (column lanes.old event.now reply.now) (O.taken out.old) (O.taken out.new) }
    ensures counted { O.faults out.old ≤ O.faults out.new }
    ensures cause { OnErr result (HasRisen (O.faults out.old) (O.faults out.new)) }
{
    let mut line = Line::new();
    line_of(reply, &mut line);
    put_column(out, lanes, event, reply, line.as_bytes())
}
