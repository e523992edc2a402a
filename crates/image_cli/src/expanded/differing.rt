ghost use Rattle.std.specs.Prelude.{◌≡◌, ◌≤◌};
ghost use Rattle.command_kit.specs.Causes.{HasCause, SinksFail};
ghost use Rattle.command_kit.specs.View.{sink_view};
ghost use Rattle.image_differ.specs.Sides.{OnlyReads, side_view};
ghost use Rattle.overlay_disk.specs.DiskState.{IsSame};
ghost use Rattle.expanded_disk.specs.Keeps.{HasIndex};
ghost use Rattle.image_cli.specs.ExpandedDiffers.{DiffersAny, DiffersFrom, DiffersOver, DiffersSecond, LacksMemory};
ghost use Rattle.image_cli.specs.Runs.{RunsExpanded};

use crate::differing::has_findings;
use crate::expanded::expanding::Whole;
use crate::expanded::owned::Owned;
use byte_streams::Sink;
use command_kit::{Status, no_memory};
use expanded_disk::{ExpandedDisk, Opened, Source, Walks, open};
use image_check::Report;
use image_differ::{Side, Which};
use overlay_disk::Original;
use page_core::NoMemory;
use sector_disk::Disk;
use std::alloc::Global;
use std::marker::Brand;

/// Prints where the images of two areas differ, as `crate::differ` does. A compressed one is read whole first, that
/// of the first side before that of the second. If it has a fault, that is reported on its side, and nothing is
/// compared; otherwise the plain image that it expands to is compared. Both sides are given back, and both disks are
/// only read.
pub fn differ<D: Disk, E: Disk, R: Report, Q: Report, O: Sink, N: Sink>(
    alloc: Global,
    first: Side<D, R>,
    second: Side<E, Q>,
    first_only: bool,
    out: &mut O,
    note: &mut N,
) -> (Side<D, R>, Side<E, Q>, Status)
    ensures outcome { DiffersAny first_only
        (side_view D.Disk R.Report first) (side_view D.Disk R.Report result.0)
        (side_view E.Disk Q.Report second) (side_view E.Disk Q.Report result.1) result.2
        (sink_view O.Sink out.old)
        (sink_view O.Sink out.new)
        (sink_view N.Sink note.old)
        (sink_view N.Sink note.new) }
    ensures cause { HasCause (SinksFail (sink_view O.Sink out.old) (sink_view O.Sink out.new)
        (sink_view N.Sink note.old) (sink_view N.Sink note.new)) ⊥ result.2 }
    ensures first { OnlyReads (side_view D.Disk R.Report first) (side_view D.Disk R.Report result.0) }
    ensures second { OnlyReads (side_view E.Disk Q.Report second) (side_view E.Disk Q.Report result.1) }
{
    let mut first = first;
    match open(alloc, &mut first.disk, first.header, &mut first.report) {
        Ok(Opened::Plain) => {
            let over = differ_second(alloc, &mut first, second, first_only, out, note);
            (first, over.0, over.1)
        }
        Ok(Opened::Refused) => {
            let status = has_findings(Which::First).tell(out, note);
            (first, second, status)
        }
        Ok(Opened::Whole(index)) => {
            let side = Side {
                disk: Owned { disk: first.disk },
                report: first.report,
                header: first.header,
            };
            let over = differ_first_expanded::<Owned<D>, Brand, E, R, Q, O, N>(
                alloc,
                Whole { side, index },
                second,
                first_only,
                out,
                note,
            );
            (given_back(over.0), over.1, over.2)
        }
        Err(NoMemory) => {
            let status = no_memory().tell(out, note);
            (first, second, status)
        }
    }
}

/// Returns the side of a disk that was only read.
fn given_back<D: Disk, R: Report>(side: Side<Owned<D>, R>) -> Side<D, R>
    ensures disk { result.disk ≡ side.disk.disk }
    ensures report { result.report ≡ side.report }
    ensures header { result.header ≡ side.header }
{
    Side {
        disk: side.disk.disk,
        report: side.report,
        header: side.header,
    }
}

/// Compares the plain image that a compressed one expands to with a second image.
fn differ_first_expanded<B: Walks, K: Original, E: Disk, R: Report, Q: Report, O: Sink, N: Sink>(
    alloc: Global,
    first: Whole<B, R>,
    second: Side<E, Q>,
    first_only: bool,
    out: &mut O,
    note: &mut N,
) -> (Side<B, R>, Side<E, Q>, Status)
    requires original { B.state first.side.disk ≡ K.state }
    requires indexed { HasIndex K.state.content K.state.blocks first.side.header first.index }
    ensures outcome { RunsExpanded (DiffersOver first_only (R.told first.side.report) (R.told result.0.report)
        (side_view E.Disk Q.Report second) (side_view E.Disk Q.Report result.1) result.2
        (sink_view O.Sink out.old)
        (sink_view O.Sink out.new)
        (sink_view N.Sink note.old)
        (sink_view N.Sink note.new))
        (LacksMemory (R.told first.side.report) (R.told result.0.report)
        (Q.told second.report) (Q.told result.1.report) result.2
        (sink_view O.Sink out.old)
        (sink_view O.Sink out.new)
        (sink_view N.Sink note.old)
        (sink_view N.Sink note.new))
        K.state.content first.side.header first.index K.state.faults (B.state result.0.disk).faults }
    ensures cause { HasCause (SinksFail (sink_view O.Sink out.old) (sink_view O.Sink out.new)
        (sink_view N.Sink note.old) (sink_view N.Sink note.new)) ⊥ result.2 }
    ensures same { IsSame K.state (B.state result.0.disk) }
    ensures faults { K.state.faults ≤ (B.state result.0.disk).faults }
    ensures header { result.0.header ≡ first.side.header }
    ensures second { OnlyReads (side_view E.Disk Q.Report second) (side_view E.Disk Q.Report result.1) }
{
    let Whole { side, index } = first;
    let Side {
        disk,
        report,
        header,
    } = side;
    match ExpandedDisk::over(alloc, Source::<B, K>::over(disk), index, header) {
        Ok(disk) => {
            let mut plain = Side {
                disk,
                report,
                header: 0,
            };
            let over = differ_second(alloc, &mut plain, second, first_only, out, note);
            let side = Side {
                disk: plain.disk.into_source().into_below(),
                report: plain.report,
                header,
            };
            (side, over.0, over.1)
        }
        Err((source, NoMemory)) => {
            let status = no_memory().tell(out, note);
            let side = Side {
                disk: source.into_below(),
                report,
                header,
            };
            (side, second, status)
        }
    }
}

/// Compares a plain image with a second one, which may be compressed.
fn differ_second<D: Disk, E: Disk, R: Report, Q: Report, O: Sink, N: Sink>(
    alloc: Global,
    first: &mut Side<D, R>,
    second: Side<E, Q>,
    first_only: bool,
    out: &mut O,
    note: &mut N,
) -> (Side<E, Q>, Status)
    ensures outcome { DiffersSecond first_only
        (side_view D.Disk R.Report first.old) (side_view D.Disk R.Report first.new)
        (side_view E.Disk Q.Report second) (side_view E.Disk Q.Report result.0) result.1
        (sink_view O.Sink out.old)
        (sink_view O.Sink out.new)
        (sink_view N.Sink note.old)
        (sink_view N.Sink note.new) }
    ensures cause { HasCause (SinksFail (sink_view O.Sink out.old) (sink_view O.Sink out.new)
        (sink_view N.Sink note.old) (sink_view N.Sink note.new)) ⊥ result.1 }
    ensures first { OnlyReads (side_view D.Disk R.Report first.old) (side_view D.Disk R.Report first.new) }
    ensures second { OnlyReads (side_view E.Disk Q.Report second) (side_view E.Disk Q.Report result.0) }
{
    let mut second = second;
    match open(alloc, &mut second.disk, second.header, &mut second.report) {
        Ok(Opened::Plain) => {
            let status = crate::differ(alloc, first, &mut second, first_only, out, note);
            (second, status)
        }
        Ok(Opened::Refused) => {
            let status = has_findings(Which::Second).tell(out, note);
            (second, status)
        }
        Ok(Opened::Whole(index)) => {
            let side = Side {
                disk: Owned { disk: second.disk },
                report: second.report,
                header: second.header,
            };
            let over = differ_second_expanded::<D, Owned<E>, Brand, R, Q, O, N>(
                alloc,
                first,
                Whole { side, index },
                first_only,
                out,
                note,
            );
            (given_back(over.0), over.1)
        }
        Err(NoMemory) => {
            let status = no_memory().tell(out, note);
            (second, status)
        }
    }
}

/// Compares a plain image with the one that a compressed one expands to.
fn differ_second_expanded<D: Disk, B: Walks, K: Original, R: Report, Q: Report, O: Sink, N: Sink>(
    alloc: Global,
    first: &mut Side<D, R>,
    second: Whole<B, Q>,
    first_only: bool,
    out: &mut O,
    note: &mut N,
) -> (Side<B, Q>, Status)
    requires original { B.state second.side.disk ≡ K.state }
    requires indexed { HasIndex K.state.content K.state.blocks second.side.header second.index }
    ensures outcome { RunsExpanded (DiffersFrom first_only
        (side_view D.Disk R.Report first.old) (side_view D.Disk R.Report first.new)
        (Q.told second.side.report) (Q.told result.0.report) result.1
        (sink_view O.Sink out.old)
        (sink_view O.Sink out.new)
        (sink_view N.Sink note.old)
        (sink_view N.Sink note.new))
        (LacksMemory (R.told first.old.report) (R.told first.new.report)
        (Q.told second.side.report) (Q.told result.0.report) result.1
        (sink_view O.Sink out.old)
        (sink_view O.Sink out.new)
        (sink_view N.Sink note.old)
        (sink_view N.Sink note.new))
        K.state.content second.side.header second.index K.state.faults (B.state result.0.disk).faults }
    ensures cause { HasCause (SinksFail (sink_view O.Sink out.old) (sink_view O.Sink out.new)
        (sink_view N.Sink note.old) (sink_view N.Sink note.new)) ⊥ result.1 }
    ensures same { IsSame K.state (B.state result.0.disk) }
    ensures faults { K.state.faults ≤ (B.state result.0.disk).faults }
    ensures header { result.0.header ≡ second.side.header }
    ensures first { OnlyReads (side_view D.Disk R.Report first.old) (side_view D.Disk R.Report first.new) }
{
    let Whole { side, index } = second;
    let Side {
        disk,
        report,
        header,
    } = side;
    match ExpandedDisk::over(alloc, Source::<B, K>::over(disk), index, header) {
        Ok(disk) => {
            let mut plain = Side {
                disk,
                report,
                header: 0,
            };
            let status = crate::differ(alloc, first, &mut plain, first_only, out, note);
            let side = Side {
                disk: plain.disk.into_source().into_below(),
                report: plain.report,
                header,
            };
            (side, status)
        }
        Err((source, NoMemory)) => {
            let status = no_memory().tell(out, note);
            let side = Side {
                disk: source.into_below(),
                report,
                header,
            };
            (side, status)
        }
    }
}
