ghost use Rattle.std.specs.Prelude.{◌≡◌, ◌≢◌, ◌≤◌, IfSome, IsTrue, Result};
ghost use Rattle.definitions.specs.Disk.{DiskImage, HasRisen};
ghost use Rattle.command_kit.specs.AnswerOf.{told_by};
ghost use Rattle.command_kit.specs.Causes.{HasCause, SinksFail};
ghost use Rattle.command_kit.specs.View.{sink_view};
ghost use Rattle.image_cli.specs.Crashes.{IsCrash};
ghost use Rattle.image_cli.specs.Unmarks.{LeavesNoImage};
ghost use Rattle.image_cli.specs.Discards.{Discards, discard_told};

use crate::unmarking::{Discarded, Fault};
use byte_streams::{Line, Sink};
use command_kit::{Answer, Status};
use sector_disk::Disk;

/// Takes back the mark of the area whose header lies in block `header`, and prints what became of the image.
pub fn discard<D: Disk, O: Sink, N: Sink>(
    disk: &mut D,
    header: u32,
    out: &mut O,
    note: &mut N,
) -> Status
    ensures outcome { Discards header (D.block_count disk.old) (D.content disk.old) (D.content disk.new) result
        (sink_view O.Sink out.old)
        (sink_view O.Sink out.new)
        (sink_view N.Sink note.old)
        (sink_view N.Sink note.new) }
    ensures unmarked { result ≡ Status.Done → IfSome (D.content disk.new) (LeavesNoImage header) }
    ensures crash { IsTrue (D.tells_moments disk.old) → (v : DiskImage) → D.left_since disk.new (D.moment disk.old) v →
        IfSome (D.content disk.old) (λ held. IsCrash header held v) }
    ensures cause { HasCause (SinksFail (sink_view O.Sink out.old) (sink_view O.Sink out.new)
        (sink_view N.Sink note.old) (sink_view N.Sink note.new))
        (HasRisen (D.faults disk.old) (D.faults disk.new)) result }
    ensures faults { D.faults disk.old ≤ D.faults disk.new }
    ensures orders { D.orders disk.new ≡ D.orders disk.old }
    ensures blocks { D.block_count disk.new ≡ D.block_count disk.old }
{
    let outcome = crate::unmarking::discard(disk, header);
    told_of(&outcome).tell(out, note)
}

/// Returns what is printed of an image that was or wasn't given up.
fn told_of(outcome: &Result<Discarded, Fault>) -> Answer
    ensures told { told_by result ≡ discard_told outcome.now }
    ensures status { result.status ≡ (discard_told outcome.now).status }
    ensures stream { result.status ≢ Status.Stream }
    ensures words { result.status ≢ Status.Words }
{
    let mut out = Line::new();
    let mut note = Line::new();
    let status = match outcome {
        Ok(Discarded::Done) => {
            out.put(b"discarded\n");
            Status::Done
        }
        Ok(Discarded::NoImage) => {
            out.put(b"no image\n");
            Status::Refused
        }
        Ok(Discarded::NoOriginal) => {
            out.put(b"no original signature\n");
            Status::Refused
        }
        Err(Fault::Read) => {
            note.put(b"read fault same\n");
            Status::Device
        }
        Err(Fault::Write) => {
            note.put(b"write fault unsure\n");
            Status::Device
        }
        Err(Fault::Sync) => {
            note.put(b"sync fault unsure\n");
            Status::Device
        }
    };
    Answer { status, out, note }
}
