//! An image that isn't compressed.
ghost use Rattle.std.specs.Prelude.{◌≡◌, ◌≤◌, ◌++◌, [], List, true, false, Err, OnOk, OnErr};
ghost use Rattle.definitions.specs.SwapHeader.{taken_back};
ghost use Rattle.image_format.specs.AreaKind.{area_kind};
ghost use Rattle.image_check.specs.Checked.{format_of};
ghost use Rattle.image_check.specs.Header.{limits_of};
ghost use Rattle.image_show.specs.HeaderFacts.{header_facts};
ghost use Rattle.image_show.specs.Reads.{Reads};
ghost use Rattle.image_show.specs.declared.facts.fact.Fact.{Fact as OneFact};
ghost use Rattle.image_show.specs.Forms.{HasFailed, Puts, PutsFront};
ghost use Rattle.image_show.specs.Shown.{ShowsImage};
ghost use Rattle.image_show.specs.declared.fault.Fault.TheVariants.{NoMemory, Write};

use crate::blocks::print_blocks;
use crate::frames::print_frames;
use crate::printing::print_header;
use crate::{Fault, Form, Reading};
use image_check::{format_of, limits_of};
use image_format::Mark;
use page_core::{Failed, Format, Page};
use sector_disk::Disk;
use std::alloc::Global;

/// Prints what the header block says, and the facts of its image: whose it is, its blocks and its page frames.
pub(crate) fn show_image<D: Disk, F: Form>(
    alloc: Global,
    form: &mut F,
    disk: &mut D,
    header: u32,
    page: &Page,
    mark: Mark,
) -> Result<(), Fault>
    ensures shown { OnOk result ((image : List OneFact)
        × (ShowsImage true (limits_of (D.block_count disk.old) header (area_kind (taken_back page.now)))
        mark.first (D.content disk.old) (D.faults disk.old) (D.faults disk.new) (format_of mark.flags) image
        × Puts F.style (header_facts (D.block_count disk.old) page.now
        ++ image) (F.written form.old) (F.written form.new))) }
    ensures front { result ≡ Err Write → (image : List OneFact)
        × (ShowsImage false (limits_of (D.block_count disk.old) header (area_kind (taken_back page.now)))
        mark.first (D.content disk.old) (D.faults disk.old) (D.faults disk.new) (format_of mark.flags) image
        × PutsFront F.style (header_facts (D.block_count disk.old) page.now
        ++ image) (F.written form.old) (F.written form.new)) }
    ensures cause { result ≡ Err Write → HasFailed (F.faults form.old) (F.faults form.new) (F.refused form.new) }
    ensures memory { result ≡ Err NoMemory → F.written form.new ≡ F.written form.old }
    ensures counted { F.faults form.old ≤ F.faults form.new }
    ensures content { D.content disk.new ≡ D.content disk.old }
    ensures faults { D.faults disk.old ≤ D.faults disk.new }
    ensures orders { D.orders disk.new ≡ D.orders disk.old }
    ensures blocks { D.block_count disk.new ≡ D.block_count disk.old }
{
    let blocks = disk.blocks();
    let limits = limits_of(blocks, header, page);
    let Ok(mut once) = Reading::begin(alloc, &limits, mark.first) else {
        return Err(Fault::NoMemory);
    };
    let Ok(mut again) = Reading::begin(alloc, &limits, mark.first) else {
        return Err(Fault::NoMemory);
    };
    match print_image(
        form,
        disk,
        page,
        &mut once,
        &mut again,
        format_of(mark.flags),
    ) {
        Ok(()) => Ok(()),
        Err(Failed) => Err(Fault::Write),
    }
}

/// Prints the facts of the header block, and then the image in two readings: all its blocks, and its number pages.
fn print_image<D: Disk, F: Form>(
    form: &mut F,
    disk: &mut D,
    page: &Page,
    once: &mut Reading,
    again: &mut Reading,
    format: Format,
) -> Result<(), Failed>
    requires blocks { D.block_count disk.old ≡ once.old.walker.limits.blocks }
    requires same { (again.old.walker.limits ≡ once.old.walker.limits)
        × (again.old.walker.walk.next ≡ once.old.walker.walk.next) }
    requires start { Reads once.old.walker.walk.next once.old [] }
    requires start_again { Reads again.old.walker.walk.next again.old [] }
    ensures shown { OnOk result ((image : List OneFact)
        × (ShowsImage true once.old.walker.limits once.old.walker.walk.next
        (D.content disk.old) (D.faults disk.old) (D.faults disk.new) format image
        × Puts F.style (header_facts (D.block_count disk.old) page.now ++ image)
        (F.written form.old) (F.written form.new))) }
    ensures front { OnErr result ((image : List OneFact)
        × (ShowsImage false once.old.walker.limits once.old.walker.walk.next
        (D.content disk.old) (D.faults disk.old) (D.faults disk.new) format image
        × PutsFront F.style (header_facts (D.block_count disk.old) page.now ++ image)
        (F.written form.old) (F.written form.new))) }
    ensures cause { OnErr result (HasFailed (F.faults form.old) (F.faults form.new) (F.refused form.new)) }
    ensures counted { F.faults form.old ≤ F.faults form.new }
    ensures content { D.content disk.new ≡ D.content disk.old }
    ensures faults { D.faults disk.old ≤ D.faults disk.new }
    ensures orders { D.orders disk.new ≡ D.orders disk.old }
    ensures blocks { D.block_count disk.new ≡ D.block_count disk.old }
{
    print_header(form, disk.blocks(), page)?;
    print_blocks(form, disk, once)?;
    print_frames(form, disk, again, format)
}
