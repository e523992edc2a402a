ghost use Rattle.std.specs.Prelude.{◌≡◌, ◌≤◌, Option};
ghost use Rattle.definitions.specs.Disk.{Content};
ghost use Rattle.command_kit.specs.Causes.{HasCause, SinksFail};
ghost use Rattle.command_kit.specs.OnlyRead.{IsOnlyRead};
ghost use Rattle.command_kit.specs.View.{sink_view};
ghost use Rattle.overlay_disk.specs.DiskState.{IsSame};
ghost use Rattle.image_cli.specs.Printed.{printer_view};
ghost use Rattle.expanded_disk.specs.Keeps.{HasIndex};
ghost use Rattle.image_machine.specs.Headings.{IsHeadingOf};
ghost use Rattle.image_machine_cli.specs.Loads.{GivesExpanded, GivesFrom};

use crate::making::{make_from, make_plain};
use crate::telling::tell_made;
use crate::wanted::Wanted;
use byte_streams::Sink;
use command_kit::{Status, no_memory};
use expanded_disk::{ExpandedDisk, Index, Source, Walks};
use image_check::Printer;
use image_machine::{Asked, Layout};
use overlay_disk::Original;
use page_core::NoMemory;
use sector_disk::Disk;
use std::alloc::Global;

/// A compressed image that is whole, and the machine that is requested of it.
#[derive(Drop)]
pub(crate) struct Whole<'a> {
    pub index: Index,
    pub asked: Asked<'a>,
    pub wanted: Wanted,
}

/// Prints the requested dump of an image that isn't compressed.
#[inline(never)]
pub(crate) fn dump_plain<D: Disk, O: Sink, N: Sink>(
    alloc: Global,
    disk: &mut D,
    layout: &Layout<'_>,
    wanted: Wanted,
    out: &mut O,
    note: &mut Printer<N>,
) -> Status
    ensures outcome { GivesFrom wanted (D.content disk.old) (D.content disk.old) (D.block_count disk.old)
        layout.now.offset (D.faults disk.old) (D.faults disk.new) (printer_view N.Sink note.old) layout.now result
        (sink_view O.Sink out.old)
        (sink_view O.Sink out.new)
        (sink_view N.Sink note.new.sink) }
    ensures cause { HasCause (SinksFail (sink_view O.Sink out.old) (sink_view O.Sink out.new)
        (sink_view N.Sink note.old.sink) (sink_view N.Sink note.new.sink)) ⊥ result }
    ensures disk { IsOnlyRead D.Disk disk.old disk.new }
{
    match make_plain(alloc, disk, layout, wanted, note) {
        Ok(made) => tell_made(&made, out, &mut note.sink),
        Err(NoMemory) => no_memory().tell(out, &mut note.sink),
    }
}

/// Prints the requested dump of the plain image that a compressed one expands to, over a disk that is given back.
#[inline(never)]
pub(crate) fn dump_expanded<B: Walks + Drop, K: Original, O: Sink, N: Sink>(
    alloc: Global,
    below: B,
    image: Whole<'_>,
    out: &mut O,
    note: &mut Printer<N>,
) -> (B, Status)
    requires original { B.state below ≡ K.state }
    requires indexed { HasIndex K.state.content K.state.blocks image.asked.layout.offset image.index }
    requires headed { IsHeadingOf K.state.content image.asked.layout.offset image.asked.heading }
    ensures outcome { GivesExpanded image.entry.wanted K.state.content image.entry.index
        K.state.faults (B.state result.0).faults (printer_view N.Sink note.old) image.entry.asked.layout result.1
        (sink_view O.Sink out.old)
        (sink_view O.Sink out.new)
        (sink_view N.Sink note.new.sink) }
    ensures cause { HasCause (SinksFail (sink_view O.Sink out.old) (sink_view O.Sink out.new)
        (sink_view N.Sink note.old.sink) (sink_view N.Sink note.new.sink)) ⊥ result.1 }
    ensures same { IsSame K.state (B.state result.0) }
    ensures faults { K.state.faults ≤ (B.state result.0).faults }
{
    let source = Source::<B, K>::over(below);
    match ExpandedDisk::over(alloc, source, image.index, image.asked.layout.offset) {
        Ok(mut disk) => {
            let status = dump_from(alloc, &mut disk, &image.asked, image.wanted, out, note);
            (disk.into_source().into_below(), status)
        }
        Err((source, NoMemory)) => {
            let status = no_memory().tell(out, &mut note.sink);
            (source.into_below(), status)
        }
    }
}

/// Prints the requested dump of an image whose heading was read, over a disk that has its page frames.
fn dump_from<D: Disk, O: Sink, N: Sink>(
    alloc: Global,
    disk: &mut D,
    asked: &Asked<'_>,
    wanted: Wanted,
    out: &mut O,
    note: &mut Printer<N>,
) -> Status
    requires headed { (area : Option Content) × IsHeadingOf area asked.now.layout.offset asked.now.heading }
    ensures outcome { (area : Option Content) → IsHeadingOf area asked.now.layout.offset asked.now.heading →
        GivesFrom wanted area (D.content disk.old) (D.block_count disk.old) 0
        (D.faults disk.old) (D.faults disk.new) (printer_view N.Sink note.old) asked.now.layout result
        (sink_view O.Sink out.old)
        (sink_view O.Sink out.new)
        (sink_view N.Sink note.new.sink) }
    ensures cause { HasCause (SinksFail (sink_view O.Sink out.old) (sink_view O.Sink out.new)
        (sink_view N.Sink note.old.sink) (sink_view N.Sink note.new.sink)) ⊥ result }
    ensures disk { IsOnlyRead D.Disk disk.old disk.new }
{
    match make_from(alloc, disk, asked, wanted, note) {
        Ok(made) => tell_made(&made, out, &mut note.sink),
        Err(NoMemory) => no_memory().tell(out, &mut note.sink),
    }
}
