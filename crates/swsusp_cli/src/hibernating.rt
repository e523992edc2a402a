ghost use Rattle.std.specs.Prelude.{◌≡◌, true};
ghost use Rattle.swsusp_cli.specs.Dumps.{Hibernates};
ghost use Rattle.command_kit.specs.AnswerOf.{told_by};
ghost use Rattle.swsusp_cli.specs.Dumps.{hibernation_told};
ghost use Rattle.swsusp_cli.specs.Causes.{HasCauseIn};
ghost use Rattle.command_kit.specs.Causes.{HasCause};
ghost use Rattle.command_kit.specs.View.{view};

use crate::dump_input::{dump_of_input, machine_of, stopped, succeeded};
use byte_streams::{Sink, Source};
use command_core::{Ended, hibernate};
use command_kit::{Answer, Status, no_memory};
use page_core::{Format, NoMemory};
use plain_machine::Reply;
use sector_disk::Disk;
use std::alloc::Global;

/// What a hibernation is asked for.
#[derive(Clone, Copy)]
pub struct Wanted {
    /// Whether pages of zeros are left out.
    pub format: Format,
    /// How many saveable page frames are to be left; cached ones are dropped for it. None: none is dropped.
    pub size: Option<u64>,
}

/// Reads a dump to its end and lets its machine hibernate. If a size is asked for, cached page frames are dropped first
/// until `size` saveable ones are left.
#[inline(never)]
pub fn hibernate_dump<I: Source, O: Sink, N: Sink, D: Disk>(
    alloc: Global,
    wanted: Wanted,
    input: &mut I,
    out: &mut O,
    note: &mut N,
    disk: &mut D,
) -> Status
    ensures outcome { Hibernates D.Disk disk.old disk.new wanted.format wanted.size
        (view I.Source O.Sink N.Sink D.Disk input.old out.old note.old disk.old)
        (view I.Source O.Sink N.Sink D.Disk input.new out.new note.new disk.new) result }
    ensures cause { HasCauseIn
        (view I.Source O.Sink N.Sink D.Disk input.old out.old note.old disk.old)
        (view I.Source O.Sink N.Sink D.Disk input.new out.new note.new disk.new) result }
{
    let dump = match dump_of_input(alloc, input) {
        Ok(dump) => dump,
        Err(stop) => return stop.tell(out, note),
    };
    let mut world = match machine_of(alloc, dump) {
        Ok(world) => world,
        Err(NoMemory) => return no_memory().tell(out, note),
    };
    let ended = hibernate(&mut world, disk, wanted.format, wanted.size);
    hibernation_answer(&ended).tell(out, note)
}

/// Returns the answer to a hibernation that has ended.
fn hibernation_answer(ended: &Ended) -> Answer
    ensures told { told_by result ≡ hibernation_told ended.now }
    ensures cause { HasCause ⊥ (ended.now.failed ≡ true) result.status }
{
    match ended.reply {
        Reply::Hibernated { .. } => succeeded(ended),
        _ => stopped(ended),
    }
}
