ghost use Rattle.std.specs.Prelude.{◌≡◌, ◌≤◌, List, Err, IfOk, OnErr, flat_map};
ghost use Rattle.image_show.specs.HeaderFacts.{header_facts};
ghost use Rattle.image_show.specs.declared.facts.fact.Fact.{Fact as OneFact};
ghost use Rattle.image_show.specs.Forms.{HasFailed, Puts, PutsFront};
ghost use Rattle.image_show.specs.Shown.{Shows, ShowsFront};
ghost use Rattle.image_show.specs.declared.fault.Fault.TheVariants.{NoMemory as LacksMemory, Write};
ghost use Rattle.overlay_disk.specs.DiskState.{IsSame};
ghost use Rattle.expanded_disk.specs.Keeps.{HasIndex};
ghost use Rattle.expanded_show.specs.Shown.{ShowsAll, ShowsExpanded, ShowsNoMore};
ghost use Rattle.expanded_show.specs.Standing.{standing};

use crate::area_facts::AreaFacts;
use crate::block_facts::area_facts;
use crate::image_form::{ImageForm, LentForm};
use byte_streams::MemSink;
use expanded_disk::{ExpandedDisk, Index, Opened, Source, Walks, open};
use image_check::Printer;
use image_show::{Fact, Fault, Form, Shown, header_facts};
use overlay_disk::{Lent, Original};
use page_core::NoMemory;
use sector_disk::Disk;
use std::alloc::Global;
use std::marker::{Brand, PhantomData};

/// A compressed image that is whole.
#[derive(Drop)]
struct Compressed {
    /// The block of the header.
    header: u32,
    index: Index,
    /// Where the image lies in its area, and what its units take.
    blocks: Vec<Fact>,
}

/// Prints what is written in the area whose header lies in block `header`, as `image_show::show` does. A compressed
/// image is read whole first, and is shown only if nothing is wrong with it: by the facts of the plain image that it
/// expands to, with the blocks of the area in place of that image's. It also takes the memory that `expanded_disk::open`
/// takes, and memory for each run of these blocks.
pub fn show<D: Disk, F: Form>(
    alloc: Global,
    disk: &mut D,
    header: u32,
    form: &mut F,
) -> Result<Shown, Fault>
    ensures shown { IfOk result (λ shown. (facts : List OneFact)
        × (ShowsAll (D.content disk.old) (D.block_count disk.old) header
        (D.faults disk.old) (D.faults disk.new) facts shown
        × Puts F.style facts (F.written form.old) (F.written form.new))) }
    // If a write failed, a prefix of such a text was written.
    ensures front { result ≡ Err Write → (facts : List OneFact)
        × (ShowsNoMore (D.content disk.old) (D.block_count disk.old) header
        (D.faults disk.old) (D.faults disk.new) facts
        × PutsFront F.style facts (F.written form.old) (F.written form.new)) }
    ensures cause { result ≡ Err Write → HasFailed (F.faults form.old) (F.faults form.new) (F.refused form.new) }
    // Memory is refused before anything is written.
    ensures memory { result ≡ Err LacksMemory → F.written form.new ≡ F.written form.old }
    ensures counted { F.faults form.old ≤ F.faults form.new }
    ensures content { D.content disk.new ≡ D.content disk.old }
    ensures faults { D.faults disk.old ≤ D.faults disk.new }
    ensures orders { D.orders disk.new ≡ D.orders disk.old }
    ensures blocks { D.block_count disk.new ≡ D.block_count disk.old }
{
    let mut unheard = Printer::new(MemSink::new(Vec::new(alloc), Vec::new(alloc)));
    match open(alloc, disk, header, &mut unheard) {
        Ok(Opened::Plain) => image_show::show(alloc, disk, header, form),
        Ok(Opened::Refused) => image_show::show(alloc, disk, header, form),
        Ok(Opened::Whole(index)) => {
            let Ok(blocks) = area_facts(alloc, disk, &index) else {
                return Err(Fault::NoMemory);
            };
            let below = Lent { disk };
            let image = Compressed {
                header,
                index,
                blocks,
            };
            let over = show_below::<Lent<'_, D>, Brand, F>(alloc, below, image, form);
            over.1
        }
        Err(NoMemory) => Err(Fault::NoMemory),
    }
}

/// Prints the facts of a whole compressed image, over a disk that is given back.
#[inline(never)]
fn show_below<B: Walks + Drop, K: Original, F: Form>(
    alloc: Global,
    below: B,
    image: Compressed,
    form: &mut F,
) -> (B, Result<Shown, Fault>)
    requires original { B.state below ≡ K.state }
    requires indexed { HasIndex K.state.content K.state.blocks image.header image.index }
    ensures shown { IfOk result.1 (λ shown. (facts : List OneFact)
        × (ShowsExpanded (λ c n h b f fs. Shows c n h b f fs shown) K.state.content K.state.blocks image.header
        image.index image.blocks.items K.state.faults (B.state result.0).faults facts
        × Puts F.style facts (F.written form.old) (F.written form.new))) }
    ensures front { result.1 ≡ Err Write → (facts : List OneFact)
        × (ShowsExpanded ShowsFront K.state.content K.state.blocks image.header
        image.index image.blocks.items K.state.faults (B.state result.0).faults facts
        × PutsFront F.style facts (F.written form.old) (F.written form.new)) }
    ensures cause { result.1 ≡ Err Write → HasFailed (F.faults form.old) (F.faults form.new) (F.refused form.new) }
    ensures memory { result.1 ≡ Err LacksMemory → F.written form.new ≡ F.written form.old }
    ensures counted { F.faults form.old ≤ F.faults form.new }
    ensures same { IsSame K.state (B.state result.0) }
    ensures faults { K.state.faults ≤ (B.state result.0).faults }
{
    let source = Source::<B, K>::over(below);
    let header = header_facts(source.blocks(), &image.index.header);
    match ExpandedDisk::over(alloc, source, image.index, image.header) {
        Ok(mut disk) => {
            let over = show_facts::<ExpandedDisk<B, K>, F, Brand>(
                alloc,
                &mut disk,
                header.as_slice(),
                image.blocks.as_slice(),
                LentForm { form },
            );
            (disk.into_source().into_below(), over.1)
        }
        Err((source, NoMemory)) => (source.into_below(), Err(Fault::NoMemory)),
    }
}

/// Prints the facts of an image from the disk that expands it, with these facts of the area in place of the disk's own.
/// The form is given back.
fn show_facts<'a, 'b, E: Disk, F: Form, A: AreaFacts>(
    alloc: Global,
    disk: &mut E,
    header: &'b [Fact],
    blocks: &'b [Fact],
    lent: LentForm<'a, F>,
) -> (LentForm<'a, F>, Result<Shown, Fault>)
    requires form { lent.form.ghost_name ≡ A.which }
    requires area { (header.now ≡ A.header) × (blocks.now ≡ A.blocks) }
    ensures shown { IfOk result.1 (λ shown. (plain : List OneFact)
        × (Shows (E.content disk.old) (E.block_count disk.old) 0 (E.faults disk.old) (E.faults disk.new) plain shown
        × Puts F.style (flat_map (standing A.header A.blocks) plain)
        (F.written lent.entry.form.now) (F.written result.0.form.now))) }
    ensures front { result.1 ≡ Err Write → (plain : List OneFact)
        × (ShowsFront (E.content disk.old) (E.block_count disk.old) 0 (E.faults disk.old) (E.faults disk.new) plain
        × PutsFront F.style (flat_map (standing A.header A.blocks) plain)
        (F.written lent.entry.form.now) (F.written result.0.form.now)) }
    ensures cause { result.1 ≡ Err Write →
        HasFailed (F.faults lent.entry.form.now) (F.faults result.0.form.now) (F.refused result.0.form.now) }
    ensures memory { result.1 ≡ Err LacksMemory → F.written result.0.form.now ≡ F.written lent.entry.form.now }
    ensures counted { F.faults lent.entry.form.now ≤ F.faults result.0.form.now }
    ensures form { result.0.form.ghost_name ≡ A.which }
    ensures content { E.content disk.new ≡ E.content disk.old }
    ensures faults { E.faults disk.old ≤ E.faults disk.new }
    ensures orders { E.orders disk.new ≡ E.orders disk.old }
    ensures blocks { E.block_count disk.new ≡ E.block_count disk.old }
{
    let LentForm { form } = lent;
    let mut over = ImageForm::<'a, 'b, F, A> {
        form,
        header,
        blocks,
        area: PhantomData,
    };
    let shown = image_show::show(alloc, disk, 0, &mut over);
    let ImageForm { form, .. } = over;
    (LentForm { form }, shown)
}
