ghost use Rattle.std.specs.Prelude.{◌≡◌, ◌⊎◌, ◌≤◌, ℕ, All, List, [], Option, length};
ghost use Rattle.definitions.specs.Disk.{HasRisen};
ghost use Rattle.plain_machine.specs.Fitting.{IsFitting};
ghost use Rattle.plain_machine.specs.declared.reply.Reply.{Reply};
ghost use Rattle.script.specs.Drill.{summary, tally_of};
ghost use Rattle.command_kit.specs.AnswerOf.{told_by};
ghost use Rattle.swsusp_cli.specs.Drills.{IsDrilled};
ghost use Rattle.swsusp_cli.specs.Playing.{HasPlayed};
ghost use Rattle.command_kit.specs.declared.status.Status.TheVariants.{Done};
ghost use Rattle.world_core.specs.StandsFor.{IsOff, blocks_of, hardware_of};
ghost use Rattle.command_kit.specs.Causes.{HasCause};
ghost use Rattle.command_kit.specs.View.{disk_view, sink_view};

use crate::setting_up::set_up;
use byte_streams::{Line, Sink};
use command_kit::{Answer, Status, no_memory};
use page_core::NoMemory;
use plain_machine::Event;
use script::{Tally, generate, put_summary};
use sector_disk::Disk;
use std::alloc::Global;
use world_core::World;

/// Plays the run of drill `number`, and prints a line that sums up its replies.
#[inline(never)]
pub fn drill<O: Sink, N: Sink, D: Disk>(
    alloc: Global,
    number: u32,
    out: &mut O,
    note: &mut N,
    disk: &mut D,
) -> Status
    requires some { 1 ≤ number }
    requires few { number ≤ 2000 }
    ensures outcome { (left : Option (List ℕ)) (read_faults : ℕ) → IsDrilled number (record {
      left = left;
      read_faults = read_faults;
      disk = disk_view D.Disk disk.old;
      out = sink_view O.Sink out.old;
      note = sink_view N.Sink note.old;
    }) (record {
      left = left;
      read_faults = read_faults;
      disk = disk_view D.Disk disk.new;
      out = sink_view O.Sink out.new;
      note = sink_view N.Sink note.new;
    }) result }
    ensures cause { HasCause
        (HasRisen (O.faults out.old) (O.faults out.new) ⊎ HasRisen (N.faults note.old) (N.faults note.new))
        (HasRisen (D.faults disk.old) (D.faults disk.new)) result }
{
    let script = match generate(alloc, number) {
        Ok(script) => script,
        Err(NoMemory) => return no_memory().tell(out, note),
    };
    let mut world = match World::create(alloc, *script.hardware()) {
        Ok(world) => world,
        Err(NoMemory) => return no_memory().tell(out, note),
    };
    match set_up(&script, disk) {
        Ok(()) => {}
        Err(why) => return why.answer().tell(out, note),
    }
    let tally = play_through(&mut world, disk, script.events());
    summed(number, &tally).tell(out, note)
}

/// Plays events, and tallies their replies.
pub fn play_through<D: Disk>(world: &mut World, disk: &mut D, events: &[Event]) -> Tally
    requires fits { All IsFitting events.now }
    requires few { length events.now ≤ 100000 }
    requires blocks { IsOff world.old ⊎ (D.block_count disk.old ≡ blocks_of world.old) }
    ensures played { (replies : List Reply) × HasPlayed world.old world.new events.now replies
        (disk_view D.Disk disk.old)
        (disk_view D.Disk disk.new)
        × (result ≡ tally_of replies) }
    ensures hardware { hardware_of world.new ≡ hardware_of world.old }
    ensures blocks { IsOff world.new ⊎ (D.block_count disk.new ≡ blocks_of world.new) }
{
    let mut tally = Tally::new();
    for event in events {
        let reply = world.event(disk, *event);
        tally.add(&reply);
    }
    tally
}

/// Returns the answer once all events are played: the summary.
fn summed(number: u32, tally: &Tally) -> Answer
    ensures told { told_by result ≡ record { status = Done; out = summary number tally.now; note = [] } }
    ensures status { result.status ≡ Done }
{
    let mut out = Line::new();
    put_summary(number, tally, &mut out);
    Answer {
        status: Status::Done,
        out,
        note: Line::new(),
    }
}
