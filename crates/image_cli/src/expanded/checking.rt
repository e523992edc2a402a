ghost use Rattle.std.specs.Prelude.{◌≡◌, ◌≤◌, false};
ghost use Rattle.command_kit.specs.Causes.{HasCause, SinksFail};
ghost use Rattle.command_kit.specs.OnlyRead.{IsOnlyRead};
ghost use Rattle.command_kit.specs.View.{sink_view};
ghost use Rattle.overlay_disk.specs.DiskState.{IsSame};
ghost use Rattle.expanded_disk.specs.Keeps.{HasIndex};
ghost use Rattle.image_cli.specs.ExpandedChecks.{ChecksAny, ChecksExpanded, PrintsCheckAny, PrintsCheckExpanded};

use crate::checking::{sum_up, sum_up_json};
use crate::expanded::expanding::Compressed;
use byte_streams::Sink;
use command_kit::{Status, no_memory};
use expanded_disk::{ExpandedDisk, Opened, Source, Walks, open};
use image_check::Printer;
use image_json::Findings;
use overlay_disk::{Lent, Original};
use page_core::NoMemory;
use sector_disk::Disk;
use std::alloc::Global;
use std::marker::Brand;

/// Prints what is wrong with the image of the area whose header lies in block `header`, as `crate::check` does. A
/// compressed image is read whole first, up to the first fault of its header, its info page, its units or its checksum;
/// if there is none, the plain image that it expands to is checked. The disk is only read.
pub fn check<D: Disk, O: Sink, N: Sink>(
    alloc: Global,
    disk: &mut D,
    header: u32,
    out: &mut Printer<O>,
    note: &mut N,
) -> Status
    requires none { out.old.count ≡ 0 }
    requires sound { out.old.failed ≡ false }
    ensures outcome { ChecksAny (D.content disk.old) (D.block_count disk.old) header
        (D.faults disk.old) (D.faults disk.new) result
        (sink_view O.Sink out.old.sink)
        (sink_view O.Sink out.new.sink)
        (sink_view N.Sink note.old)
        (sink_view N.Sink note.new) }
    ensures cause { HasCause (SinksFail (sink_view O.Sink out.old.sink) (sink_view O.Sink out.new.sink)
        (sink_view N.Sink note.old) (sink_view N.Sink note.new)) ⊥ result }
    ensures disk { IsOnlyRead D.Disk disk.old disk.new }
{
    match open(alloc, disk, header, out) {
        Ok(Opened::Plain) => crate::check(alloc, disk, header, out, note),
        Ok(Opened::Refused) => sum_up(out, note),
        Ok(Opened::Whole(index)) => {
            let below = Lent { disk };
            let image = Compressed { header, index };
            let over = check_expanded::<Lent<'_, D>, Brand, O, N>(alloc, below, image, out, note);
            over.1
        }
        Err(NoMemory) => no_memory().tell(&mut out.sink, note),
    }
}

/// Checks the plain image that a compressed one expands to, over a disk that is given back.
fn check_expanded<B: Walks + Drop, K: Original, O: Sink, N: Sink>(
    alloc: Global,
    below: B,
    image: Compressed,
    out: &mut Printer<O>,
    note: &mut N,
) -> (B, Status)
    requires none { out.old.count ≡ 0 }
    requires sound { out.old.failed ≡ false }
    requires original { B.state below ≡ K.state }
    requires indexed { HasIndex K.state.content K.state.blocks image.header image.index }
    ensures outcome { ChecksExpanded K.state.content image.header image.index
        K.state.faults (B.state result.0).faults result.1
        (sink_view O.Sink out.old.sink)
        (sink_view O.Sink out.new.sink)
        (sink_view N.Sink note.old)
        (sink_view N.Sink note.new) }
    ensures cause { HasCause (SinksFail (sink_view O.Sink out.old.sink) (sink_view O.Sink out.new.sink)
        (sink_view N.Sink note.old) (sink_view N.Sink note.new)) ⊥ result.1 }
    ensures same { IsSame K.state (B.state result.0) }
    ensures faults { K.state.faults ≤ (B.state result.0).faults }
{
    let source = Source::<B, K>::over(below);
    match ExpandedDisk::over(alloc, source, image.index, image.header) {
        Ok(mut disk) => {
            let status = crate::check(alloc, &mut disk, 0, out, note);
            (disk.into_source().into_below(), status)
        }
        Err((source, NoMemory)) => {
            let status = no_memory().tell(&mut out.sink, note);
            (source.into_below(), status)
        }
    }
}

/// Prints the same as one JSON object on a line, as `crate::check_json` does. The disk is only read.
pub fn check_json<D: Disk, O: Sink, N: Sink>(
    alloc: Global,
    disk: &mut D,
    header: u32,
    out: &mut O,
    note: &mut N,
) -> Status
    ensures outcome { PrintsCheckAny (D.content disk.old) (D.block_count disk.old) header
        (D.faults disk.old) (D.faults disk.new) result
        (sink_view O.Sink out.old)
        (sink_view O.Sink out.new)
        (sink_view N.Sink note.old)
        (sink_view N.Sink note.new) }
    ensures cause { HasCause (SinksFail (sink_view O.Sink out.old) (sink_view O.Sink out.new)
        (sink_view N.Sink note.old) (sink_view N.Sink note.new)) ⊥ result }
    ensures disk { IsOnlyRead D.Disk disk.old disk.new }
{
    let mut findings = Findings::new(alloc);
    match open(alloc, disk, header, &mut findings) {
        Ok(Opened::Plain) => crate::check_json(alloc, disk, header, out, note),
        Ok(Opened::Refused) => sum_up_json(alloc, &findings, out, note),
        Ok(Opened::Whole(index)) => {
            let below = Lent { disk };
            let image = Compressed { header, index };
            let over = check_expanded_json::<Lent<'_, D>, Brand, O, N>(
                alloc, below, image, out, note,
            );
            over.1
        }
        Err(NoMemory) => no_memory().tell(out, note),
    }
}

/// Checks the plain image that a compressed one expands to, over a disk that is given back, and prints an object.
fn check_expanded_json<B: Walks + Drop, K: Original, O: Sink, N: Sink>(
    alloc: Global,
    below: B,
    image: Compressed,
    out: &mut O,
    note: &mut N,
) -> (B, Status)
    requires original { B.state below ≡ K.state }
    requires indexed { HasIndex K.state.content K.state.blocks image.header image.index }
    ensures outcome { PrintsCheckExpanded K.state.content image.header image.index
        K.state.faults (B.state result.0).faults result.1
        (sink_view O.Sink out.old)
        (sink_view O.Sink out.new)
        (sink_view N.Sink note.old)
        (sink_view N.Sink note.new) }
    ensures cause { HasCause (SinksFail (sink_view O.Sink out.old) (sink_view O.Sink out.new)
        (sink_view N.Sink note.old) (sink_view N.Sink note.new)) ⊥ result.1 }
    ensures same { IsSame K.state (B.state result.0) }
    ensures faults { K.state.faults ≤ (B.state result.0).faults }
{
    let source = Source::<B, K>::over(below);
    match ExpandedDisk::over(alloc, source, image.index, image.header) {
        Ok(mut disk) => {
            let status = crate::check_json(alloc, &mut disk, 0, out, note);
            (disk.into_source().into_below(), status)
        }
        Err((source, NoMemory)) => {
            let status = no_memory().tell(out, note);
            (source.into_below(), status)
        }
    }
}
