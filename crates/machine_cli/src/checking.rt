ghost use Rattle.std.specs.Prelude.{◌≡◌, true};
ghost use Rattle.machine_cli.specs.Checked.{Checks, foretold_told};
ghost use Rattle.command_kit.specs.AnswerOf.{told_by};
ghost use Rattle.swsusp_cli.specs.Causes.{HasCauseIn};
ghost use Rattle.command_kit.specs.Causes.{HasCause};
ghost use Rattle.command_kit.specs.View.{view};

use crate::dry::would_resume;
use byte_streams::{Sink, Source};
use command_core::Ended;
use command_kit::{Answer, Status, no_memory};
use page_core::NoMemory;
use plain_machine::{IdentCheck, Reply};
use sector_disk::Disk;
use std::alloc::Global;
use swsusp_cli::{dump_of_input, machine_of, stopped, succeeded};

/// Reads a loader's dump to its end, and reports the reply that a resume of the image on the disk into its machine
/// would give, with this check of the image's identity. The disk is only read.
#[inline(never)]
pub fn check<I: Source, O: Sink, N: Sink, D: Disk>(
    alloc: Global,
    input: &mut I,
    out: &mut O,
    note: &mut N,
    disk: &mut D,
    ident_check: IdentCheck,
) -> Status
    ensures outcome { Checks ident_check
        (view I.Source O.Sink N.Sink D.Disk input.old out.old note.old disk.old)
        (view I.Source O.Sink N.Sink D.Disk input.new out.new note.new disk.new) result }
    ensures cause { HasCauseIn
        (view I.Source O.Sink N.Sink D.Disk input.old out.old note.old disk.old)
        (view I.Source O.Sink N.Sink D.Disk input.new out.new note.new disk.new) result }
{
    let dump = match dump_of_input(alloc, input) {
        Ok(dump) => dump,
        Err(stop) => return stop.tell(out, note),
    };
    let mut world = match machine_of(alloc, dump) {
        Ok(world) => world,
        Err(NoMemory) => return no_memory().tell(out, note),
    };
    match would_resume(&mut world, disk, ident_check) {
        Ok(ended) => foretold(&ended).tell(out, note),
        Err(NoMemory) => no_memory().tell(out, note),
    }
}

/// Returns what a resume would say at its end. It goes to out if the resume would end well.
fn foretold(ended: &Ended) -> Answer
    ensures told { told_by result ≡ foretold_told ended.now }
    ensures cause { HasCause ⊥ (ended.now.failed ≡ true) result.status }
{
    match ended.reply {
        Reply::Resumed { .. } => succeeded(ended),
        _ => stopped(ended),
    }
}
