ghost use Rattle.std.specs.Prelude.{◌≡◌, ◌≤◌, IfOk, OnErr, [], length};
ghost use Rattle.definitions.specs.Disk.{HasRisen};
ghost use Rattle.command_kit.specs.AnswerOf.{told_by};
ghost use Rattle.command_kit.specs.Causes.{HasCause, SinksFail};
ghost use Rattle.command_kit.specs.View.{sink_view};
ghost use Rattle.image_differ.specs.Compares.{HasCompared};
ghost use Rattle.image_differ.specs.Sides.{OnlyReads, side_view};
ghost use Rattle.image_differ.specs.declared.comparison.Opened.TheVariants as opened;
ghost use Rattle.image_cli.specs.Differing.{FailsWithin, Finishes};
ghost use Rattle.image_cli.specs.Differs.{Compares, Differs, end_of, note_of, refused_note, unopened_told, which_text};

use crate::showing::cut_short;
use byte_streams::{Line, Sink, put_all};
use command_kit::{Answer, Status, no_memory, tell};
use image_check::Report;
use image_differ::{Comparison, Next, Opened, Side, Which, line_of};
use page_core::{Failed, NoMemory};
use sector_disk::Disk;
use std::alloc::Global;

/// How a comparison ended.
#[derive(Clone, Copy, Debug, PartialEq, Eq)]
enum Ended {
    Same,
    Different,
    /// What is wrong with one of the images was reported.
    Refused(Which),
}

/// Prints where the images of two areas differ, a line for each difference: in their marks, in what their info pages
/// say, and in their saved page frames, in ascending order; or `same`; or only the first difference, if that is asked
/// for. The status is `Done` if and only if they are the same. What is wrong with an image ends the comparison, and is
/// noted. Both disks are only read.
pub fn differ<D: Disk, E: Disk, R: Report, Q: Report, O: Sink, N: Sink>(
    alloc: Global,
    first: &mut Side<D, R>,
    second: &mut Side<E, Q>,
    first_only: bool,
    out: &mut O,
    note: &mut N,
) -> Status
    ensures outcome { Differs first_only
        (side_view D.Disk R.Report first.old) (side_view D.Disk R.Report first.new)
        (side_view E.Disk Q.Report second.old) (side_view E.Disk Q.Report second.new) result
        (sink_view O.Sink out.old)
        (sink_view O.Sink out.new)
        (sink_view N.Sink note.old)
        (sink_view N.Sink note.new) }
    ensures cause { HasCause (SinksFail (sink_view O.Sink out.old) (sink_view O.Sink out.new)
        (sink_view N.Sink note.old) (sink_view N.Sink note.new)) ⊥ result }
    ensures first { OnlyReads (side_view D.Disk R.Report first.old) (side_view D.Disk R.Report first.new) }
    ensures second { OnlyReads (side_view E.Disk Q.Report second.old) (side_view E.Disk Q.Report second.new) }
{
    match Comparison::open(alloc, first, second) {
        Ok(Opened::Open(mut comparison)) => compare(
            &mut comparison,
            first,
            second,
            first_only,
            out,
            note,
        ),
        Ok(opened) => tell(Status::Refused, b"", note_of(&opened).as_bytes(), out, note),
        Err(NoMemory) => no_memory().tell(out, note),
    }
}

/// Prints the differences of two open images, and what follows them.
fn compare<D: Disk, E: Disk, R: Report, Q: Report, O: Sink, N: Sink>(
    comparison: &mut Comparison,
    first: &mut Side<D, R>,
    second: &mut Side<E, Q>,
    first_only: bool,
    out: &mut O,
    note: &mut N,
) -> Status
    requires { HasCompared (side_view D.Disk R.Report first.old) (side_view E.Disk Q.Report second.old)
        comparison.old [] }
    ensures outcome { Compares first_only
        (side_view D.Disk R.Report first.old) (side_view D.Disk R.Report first.new)
        (side_view E.Disk Q.Report second.old) (side_view E.Disk Q.Report second.new) result
        (sink_view O.Sink out.old)
        (sink_view O.Sink out.new)
        (sink_view N.Sink note.old)
        (sink_view N.Sink note.new) }
    ensures cause { HasCause (SinksFail (sink_view O.Sink out.old) (sink_view O.Sink out.new)
        (sink_view N.Sink note.old) (sink_view N.Sink note.new)) ⊥ result }
    ensures first { OnlyReads (side_view D.Disk R.Report first.old) (side_view D.Disk R.Report first.new) }
    ensures second { OnlyReads (side_view E.Disk Q.Report second.old) (side_view E.Disk Q.Report second.new) }
{
    match tell_differences(comparison, first, second, first_only, out) {
        Ok(Ended::Same) => tell(Status::Done, b"same\n", b"", out, note),
        Ok(Ended::Different) => tell(Status::Refused, b"", b"", out, note),
        Ok(Ended::Refused(which)) => has_findings(which).tell(out, note),
        Err(Failed) => cut_short(note),
    }
}

/// Prints the differences as they are found.
fn tell_differences<D: Disk, E: Disk, R: Report, Q: Report, O: Sink>(
    comparison: &mut Comparison,
    first: &mut Side<D, R>,
    second: &mut Side<E, Q>,
    first_only: bool,
    out: &mut O,
) -> Result<Ended, Failed>
    requires { HasCompared (side_view D.Disk R.Report first.old) (side_view E.Disk Q.Report second.old)
        comparison.old [] }
    ensures ends { IfOk result (Finishes first_only
        (side_view D.Disk R.Report first.old) (side_view D.Disk R.Report first.new)
        (side_view E.Disk Q.Report second.old) (side_view E.Disk Q.Report second.new)
        (O.taken out.old) (O.taken out.new)) }
    ensures fails { OnErr result (FailsWithin
        (side_view D.Disk R.Report first.old) (side_view D.Disk R.Report first.new)
        (side_view E.Disk Q.Report second.old) (side_view E.Disk Q.Report second.new)
        (O.taken out.old) (O.taken out.new)) }
    ensures cause { OnErr result (HasRisen (O.faults out.old) (O.faults out.new)) }
    ensures counted { O.faults out.old ≤ O.faults out.new }
    ensures first { OnlyReads (side_view D.Disk R.Report first.old) (side_view D.Disk R.Report first.new) }
    ensures second { OnlyReads (side_view E.Disk Q.Report second.old) (side_view E.Disk Q.Report second.new) }
{
    let mut count: u64 = 0;
    loop {
        match comparison.next(first, second) {
            Next::Difference(difference) => {
                put_all(out, line_of(&difference).as_bytes())?;
                if first_only {
                    return Ok(Ended::Different);
                }
                count += 1;
            }
            Next::End => return Ok(end_of(count)),
            Next::Refused(which) => return Ok(Ended::Refused(which)),
        }
    }
}

/// Returns how a whole comparison ended, by how many differences there are.
fn end_of(count: u64) -> Ended
    ensures { result ≡ end_of count }
{
    if count == 0 {
        Ended::Same
    } else {
        Ended::Different
    }
}

/// Returns the answer for two images of which one has findings: nothing more is printed.
pub fn has_findings(which: Which) -> Answer
    ensures told { told_by result ≡ unopened_told (opened.Refused which) }
    ensures status { result.status ≡ Status.Refused }
{
    Answer {
        status: Status::Refused,
        out: Line::new(),
        note: refused_note(which, b"the image has findings"),
    }
}

/// Returns why two images aren't compared. The note is empty if they are.
fn note_of(opened: &Opened) -> Line
    ensures { result ≡ note_of opened.now }
{
    match opened {
        Opened::NoImage(which) => refused_note(*which, b"no image"),
        Opened::Refused(which) => refused_note(*which, b"the image has findings"),
        Opened::Open(_) => Line::new(),
    }
}

/// Returns the line that says which image is refused, and why.
fn refused_note(which: Which, why: &[u8]) -> Line
    requires { length why.now ≤ 40 }
    ensures { result ≡ refused_note which why.now }
{
    let mut line = Line::new();
    line.put(which_text(which));
    line.put(why);
    line.put(b"\n");
    line
}

fn which_text(which: Which) -> &'static [u8]
    ensures text { result.now ≡ which_text which }
    ensures short { length result.now ≤ 8 }
{
    match which {
        Which::First => b"first: ",
        Which::Second => b"second: ",
    }
}
