ghost use Rattle.std.specs.Prelude.{◌≡◌, List, [], Some, false, length, min};
ghost use Rattle.definitions.specs.Disk.{last_count};
ghost use Rattle.command_kit.specs.AnswerOf.{told_by};
ghost use Rattle.command_kit.specs.Causes.{HasCause, SinksFail};
ghost use Rattle.command_kit.specs.OnlyRead.{IsOnlyRead};
ghost use Rattle.command_kit.specs.Told.{IsTold};
ghost use Rattle.command_kit.specs.View.{SinkView, sink_view};
ghost use Rattle.image_check.specs.Told.{Tells};
ghost use Rattle.image_check.specs.declared.finding.Finding.{Finding};
ghost use Rattle.image_json.specs.Findings.{untold};
ghost use Rattle.image_cli.specs.Checks.{Checks, findings_told, last_line, status_of};
ghost use Rattle.image_cli.specs.Json.{PrintsCheck, TellsCheck, status_whole, told_of_checked};
ghost use Rattle.image_cli.specs.Printed.{IsSoFar, printer_view};

use crate::showing::cut_short;
use byte_streams::{Line, Sink};
use command_kit::{Answer, Status, no_memory, tell};
use image_check::{Outcome, Printer, Report};
use image_json::{Checked, Findings};
use page_core::NoMemory;
use sector_disk::Disk;
use std::alloc::Global;

/// Prints what is wrong with the image of the area whose header lies in block `header`: a line for each finding, with
/// its place, in the order in which the image is read, and then `whole`, or how many findings there are; `no image` if
/// the header block, if the disk has it, carries no mark. The status is `Done` if and only if the image is whole. The
/// disk is only read.
pub fn check<D: Disk, O: Sink, N: Sink>(
    alloc: Global,
    disk: &mut D,
    header: u32,
    out: &mut Printer<O>,
    note: &mut N,
) -> Status
    requires none { out.old.count ≡ 0 }
    requires sound { out.old.failed ≡ false }
    ensures outcome { Checks (D.content disk.old) (D.block_count disk.old) header (D.faults disk.old)
        (D.faults disk.new) result
        (sink_view O.Sink out.old.sink)
        (sink_view O.Sink out.new.sink)
        (sink_view N.Sink note.old)
        (sink_view N.Sink note.new) }
    ensures cause { HasCause (SinksFail (sink_view O.Sink out.old.sink) (sink_view O.Sink out.new.sink)
        (sink_view N.Sink note.old) (sink_view N.Sink note.new)) ⊥ result }
    ensures disk { IsOnlyRead D.Disk disk.old disk.new }
{
    match image_check::check(alloc, disk, header, out) {
        Ok(Outcome::NoImage) => tell(Status::Refused, b"no image\n", b"", &mut out.sink, note),
        Ok(Outcome::Checked) => sum_up(out, note),
        Err(NoMemory) => no_memory().tell(&mut out.sink, note),
    }
}

/// Prints the same as one JSON object on a line: the findings, whether there is an image, and whether it is whole. The
/// status is that of `check`. The disk is only read.
pub fn check_json<D: Disk, O: Sink, N: Sink>(
    alloc: Global,
    disk: &mut D,
    header: u32,
    out: &mut O,
    note: &mut N,
) -> Status
    ensures outcome { PrintsCheck (D.content disk.old) (D.block_count disk.old) header
        (D.faults disk.old) (D.faults disk.new) result
        (sink_view O.Sink out.old)
        (sink_view O.Sink out.new)
        (sink_view N.Sink note.old)
        (sink_view N.Sink note.new) }
    ensures cause { HasCause (SinksFail (sink_view O.Sink out.old) (sink_view O.Sink out.new)
        (sink_view N.Sink note.old) (sink_view N.Sink note.new)) ⊥ result }
    ensures disk { IsOnlyRead D.Disk disk.old disk.new }
{
    tell_checked(&image_json::check(alloc, disk, header), out, note)
}

/// Ends a JSON check whose findings were kept.
pub fn sum_up_json<O: Sink, N: Sink>(
    alloc: Global,
    findings: &Findings,
    out: &mut O,
    note: &mut N,
) -> Status
    ensures told { (found : List Finding) → Tells found untold (⟦<Findings as Report>⟧.told findings.now) →
        TellsCheck (Some found) result
        (sink_view O.Sink out.old)
        (sink_view O.Sink out.new)
        (sink_view N.Sink note.old)
        (sink_view N.Sink note.new) }
    ensures cause { HasCause (SinksFail (sink_view O.Sink out.old) (sink_view O.Sink out.new)
        (sink_view N.Sink note.old) (sink_view N.Sink note.new)) ⊥ result }
{
    tell_checked(&image_json::sum_up(alloc, findings), out, note)
}

/// Prints the object of the findings of a check, or that memory was refused.
fn tell_checked<O: Sink, N: Sink>(
    checked: &Result<Checked, NoMemory>,
    out: &mut O,
    note: &mut N,
) -> Status
    ensures told { IsTold (told_of_checked checked.now) result
        (sink_view O.Sink out.old)
        (sink_view O.Sink out.new)
        (sink_view N.Sink note.old)
        (sink_view N.Sink note.new) }
    ensures cause { HasCause (SinksFail (sink_view O.Sink out.old) (sink_view O.Sink out.new)
        (sink_view N.Sink note.old) (sink_view N.Sink note.new)) ⊥ result }
{
    match checked {
        Ok(checked) => {
            let status = status_whole(checked.whole);
            tell(status, checked.line.as_bytes(), b"", out, note)
        }
        Err(NoMemory) => no_memory().tell(out, note),
    }
}

fn status_whole(whole: bool) -> Status
    ensures status { result ≡ status_whole whole }
    ensures cause { HasCause ⊥ ⊥ result }
{
    if whole { Status::Done } else { Status::Refused }
}

/// Ends a check whose findings were printed.
pub fn sum_up<O: Sink, N: Sink>(out: &mut Printer<O>, note: &mut N) -> Status
    ensures told { (found : List Finding) (start : SinkView) → IsSoFar found start (printer_view O.Sink out.old) →
        IsTold (findings_told found) result start
        (sink_view O.Sink out.new.sink)
        (sink_view N.Sink note.old)
        (sink_view N.Sink note.new) }
    ensures cause { HasCause
        ((found : List Finding) (start : SinkView) → IsSoFar found start (printer_view O.Sink out.old) →
        SinksFail start (sink_view O.Sink out.new.sink) (sink_view N.Sink note.old) (sink_view N.Sink note.new))
        ⊥ result }
{
    if out.failed {
        return cut_short(note);
    }
    summary(out.count).tell(&mut out.sink, note)
}

/// Returns the last line of a check, by how many findings there were.
fn summary(count: u64) -> Answer
    ensures told { (found : List Finding) → count ≡ min (length found) last_count →
        told_by result ≡ record { status = status_of found; out = last_line found; note = [] } }
    ensures cause { HasCause ⊥ ⊥ result.status }
{
    let mut out = Line::new();
    let status = if count == 0 {
        out.put(b"whole\n");
        Status::Done
    } else {
        out.put_number(count);
        out.put(b" findings\n");
        Status::Refused
    };
    Answer {
        status,
        out,
        note: Line::new(),
    }
}
