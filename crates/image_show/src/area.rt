//! All that an area and its image say.
ghost use Rattle.std.specs.Prelude.{◌≡◌, ◌≤◌, List, true, false, Ok, Err, IfOk, OnOk};
ghost use Rattle.image_walk.specs.Names.{IsReadFrom};
ghost use Rattle.image_check.specs.Checked.{mark_in};
ghost use Rattle.image_show.specs.declared.facts.fact.Fact.{Fact as OneFact};
ghost use Rattle.image_show.specs.Forms.{HasFailed, Puts, PutsFront};
ghost use Rattle.image_show.specs.Shown.{readable_mark, Shows, ShowsFront, ShowsHeader};
ghost use Rattle.image_show.specs.declared.fault.Fault.TheVariants.{NoMemory, Write};

use crate::image::show_image;
use crate::printing::{print_header_only, print_only};
use crate::shown::Shown;
use crate::{Fact, Fault, Form};
use image_check::{is_compressed, mark_in};
use image_format::{AreaKind, Mark};
use page_core::Page;
use sector_disk::Disk;
use std::alloc::Global;

/// Prints what is written in the area whose header lies in block `header`, one fact per line, and, if it has an image
/// that isn't compressed, what that image says and names. It reads as far as the bytes allow: a block that can't be one
/// of the image, or can't be read, ends the output. The image is read twice, the second time up to its last number
/// page. Nothing is flushed. It takes memory of two bits for each block of the disk.
pub fn show<D: Disk, F: Form>(
    alloc: Global,
    disk: &mut D,
    header: u32,
    form: &mut F,
) -> Result<Shown, Fault>
    ensures shown { IfOk result (λ shown. (facts : List OneFact)
        × (Shows (D.content disk.old) (D.block_count disk.old) header
        (D.faults disk.old) (D.faults disk.new) facts shown
        × Puts F.style facts (F.written form.old) (F.written form.new))) }
    // If a write failed, a prefix of such a text was written.
    ensures front { result ≡ Err Write → (facts : List OneFact)
        × (ShowsFront (D.content disk.old) (D.block_count disk.old) header
        (D.faults disk.old) (D.faults disk.new) facts
        × PutsFront F.style facts (F.written form.old) (F.written form.new)) }
    ensures cause { result ≡ Err Write → HasFailed (F.faults form.old) (F.faults form.new) (F.refused form.new) }
    // Memory is refused before anything is written.
    ensures memory { result ≡ Err NoMemory → F.written form.new ≡ F.written form.old }
    ensures counted { F.faults form.old ≤ F.faults form.new }
    ensures content { D.content disk.new ≡ D.content disk.old }
    ensures faults { D.faults disk.old ≤ D.faults disk.new }
    ensures orders { D.orders disk.new ≡ D.orders disk.old }
    ensures blocks { D.block_count disk.new ≡ D.block_count disk.old }
{
    let blocks = disk.blocks();
    if header >= blocks {
        print_only(form, &[Fact::Blocks(blocks), Fact::HeaderMissing])?;
        return Ok(Shown::NoHeader);
    }
    let mut page = Page::zero();
    if disk.read(header, &mut page).is_err() {
        print_only(form, &[Fact::Blocks(blocks), Fact::HeaderUnread])?;
        return Ok(Shown::NoHeader);
    }
    show_header(alloc, form, disk, header, &page)?;
    Ok(Shown::Area)
}

/// Prints what a header block says, and its image if that isn't compressed.
fn show_header<D: Disk, F: Form>(
    alloc: Global,
    form: &mut F,
    disk: &mut D,
    header: u32,
    page: &Page,
) -> Result<(), Fault>
    ensures shown { IsReadFrom (D.content disk.old) header (Ok page.now) → OnOk result ((facts : List OneFact)
        × (ShowsHeader true
        (D.content disk.old) (D.block_count disk.old) header (D.faults disk.old) (D.faults disk.new) facts
        × Puts F.style facts (F.written form.old) (F.written form.new))) }
    ensures front { IsReadFrom (D.content disk.old) header (Ok page.now) → result ≡ Err Write →
        (facts : List OneFact) × (ShowsHeader false
        (D.content disk.old) (D.block_count disk.old) header (D.faults disk.old) (D.faults disk.new) facts
        × PutsFront F.style facts (F.written form.old) (F.written form.new)) }
    ensures cause { result ≡ Err Write → HasFailed (F.faults form.old) (F.faults form.new) (F.refused form.new) }
    ensures memory { result ≡ Err NoMemory → F.written form.new ≡ F.written form.old }
    ensures counted { F.faults form.old ≤ F.faults form.new }
    ensures content { D.content disk.new ≡ D.content disk.old }
    ensures faults { D.faults disk.old ≤ D.faults disk.new }
    ensures orders { D.orders disk.new ≡ D.orders disk.old }
    ensures blocks { D.block_count disk.new ≡ D.block_count disk.old }
{
    match readable_mark(AreaKind::read(page)) {
        Some(mark) => show_image(alloc, form, disk, header, page, mark),
        None => print_header_only(form, disk.blocks(), page),
    }
}

/// Returns the mark of an image that isn't compressed.
fn readable_mark(kind: AreaKind) -> Option<Mark>
    ensures { result ≡ readable_mark (mark_in kind) }
{
    let mark = mark_in(kind)?;
    if is_compressed(mark.flags) {
        None
    } else {
        Some(mark)
    }
}
