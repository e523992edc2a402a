ghost use Rattle.std.specs.Prelude.{◌≡◌, ◌⊎◌, ◌≤◌, ℕ, All, List, take, OnOk, OnErr, MatchResult};
ghost use Rattle.definitions.specs.Disk.{HasRisen};
ghost use Rattle.definitions.specs.Streams.{TakesAll, TakesFront};
ghost use Rattle.plain_machine.specs.Fitting.{IsFitting};
ghost use Rattle.plain_machine.specs.Replies.{text_of, line_of};
ghost use Rattle.plain_machine.specs.declared.reply.Reply.{Reply};
ghost use Rattle.world_core.specs.StandsFor.{IsOff, blocks_of, hardware_of};
ghost use Rattle.swsusp_cli.specs.Playing.{HasPlayed};
ghost use Rattle.swsusp_cli.specs.Replay.{TakesToLast};
ghost use Rattle.command_kit.specs.View.{disk_view};

use byte_streams::{Line, Sink, put_all};
use page_core::Failed;
use plain_machine::{Event, Reply};
use script::line_of;
use sector_disk::Disk;
use world_core::World;

/// Plays events, and prints each one's reply before the next event.
pub fn play<D: Disk, O: Sink>(
    world: &mut World,
    disk: &mut D,
    out: &mut O,
    events: &[Event],
) -> Result<(), Failed>
    requires fits { All IsFitting events.now }
    requires blocks { IsOff world.old ⊎ (D.block_count disk.old ≡ blocks_of world.old) }
    ensures played { MatchResult result
        (λ _. (replies : List Reply) × HasPlayed world.old world.new events.now replies
        (disk_view D.Disk disk.old)
        (disk_view D.Disk disk.new)
        × TakesAll (text_of replies) (O.taken out.old) (O.taken out.new))
        (λ _. (k : ℕ) × (replies : List Reply) × HasPlayed world.old world.new (take k events.now) replies
        (disk_view D.Disk disk.old)
        (disk_view D.Disk disk.new)
        × TakesToLast replies (O.taken out.old) (O.taken out.new)) }
    ensures stream { OnErr result (HasRisen (O.faults out.old) (O.faults out.new)) }
    ensures stream_faults { O.faults out.old ≤ O.faults out.new }
    ensures hardware { hardware_of world.new ≡ hardware_of world.old }
    ensures blocks { IsOff world.new ⊎ (D.block_count disk.new ≡ blocks_of world.new) }
{
    for event in events {
        let reply = world.event(disk, *event);
        match print_reply(out, &reply) {
            Ok(()) => {}
            Err(Failed) => return Err(Failed),
        }
    }
    Ok(())
}

fn print_reply<O: Sink>(out: &mut O, reply: &Reply) -> Result<(), Failed>
    ensures whole { OnOk result (TakesAll (line_of reply.now) (O.taken out.old) (O.taken out.new)) }
    ensures front { TakesFront (line_of reply.now) (O.taken out.old) (O.taken out.new) }
    ensures counted { O.faults out.old ≤ O.faults out.new }
    ensures cause { OnErr result (HasRisen (O.faults out.old) (O.faults out.new)) }
{
    let mut line = Line::new();
    line_of(reply, &mut line);
    put_all(out, line.as_bytes())
}
