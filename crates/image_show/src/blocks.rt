//! The info page and the blocks of an image.
ghost use Rattle.std.specs.Prelude.{◌≡◌, ◌≤◌, ◌++◌, ◌∷◌, [], List, Bool, true, OnOk, OnErr, map};
ghost use Rattle.image_show.specs.Reads.{Reads};
ghost use Rattle.image_show.specs.Runs.{list_of};
ghost use Rattle.image_show.specs.Told.{block_run};
ghost use Rattle.image_show.specs.declared.facts.fact.Fact.{Fact as OneFact};
ghost use Rattle.image_show.specs.declared.facts.fact.Fact.TheVariants.{Maps};
ghost use Rattle.image_show.specs.Forms.{HasFailed, Puts, PutsFront};
ghost use Rattle.image_show.specs.Parts.{facts_of_info, maps_after, part_facts};
ghost use Rattle.image_show.specs.Shown.{ShowsBlocks};

use crate::printing::{print, print_any};
use crate::{Fact, Form, Part, Reading, Runs, info_facts};
use page_core::{Failed, Page};
use sector_disk::Disk;

/// Prints what the info page says, the runs of blocks as they end, and how many maps there are.
pub(crate) fn print_blocks<D: Disk, F: Form>(
    form: &mut F,
    disk: &mut D,
    reading: &mut Reading,
) -> Result<(), Failed>
    requires blocks { D.block_count disk.old ≡ reading.old.walker.limits.blocks }
    requires start { Reads reading.old.walker.walk.next reading.old [] }
    ensures whole { OnOk result ((facts : List OneFact)
        × (ShowsBlocks true reading.old.walker.limits reading.old.walker.walk.next
        (D.content disk.old) (D.faults disk.old) (D.faults disk.new) facts
        × Puts F.style facts (F.written form.old) (F.written form.new))) }
    ensures front { OnErr result ((whole : Bool) × ((facts : List OneFact)
        × (ShowsBlocks whole reading.old.walker.limits reading.old.walker.walk.next
        (D.content disk.old) (D.faults disk.old) (D.faults disk.new) facts
        × PutsFront F.style facts (F.written form.old) (F.written form.new)))) }
    ensures counted { F.faults form.old ≤ F.faults form.new }
    ensures cause { OnErr result (HasFailed (F.faults form.old) (F.faults form.new) (F.refused form.new)) }
    ensures content { D.content disk.new ≡ D.content disk.old }
    ensures faults { D.faults disk.old ≤ D.faults disk.new }
    ensures orders { D.orders disk.new ≡ D.orders disk.old }
    ensures blocks { D.block_count disk.new ≡ D.block_count disk.old }
{
    // A disk has fewer than 2^32 blocks.
    let _ = disk.blocks();
    let mut page = Page::zero();
    let mut runs = Runs::new();
    let mut maps = 0;
    while let Some(part) = reading.next(disk, &mut page) {
        let ended = runs.add(part.block());
        maps = maps_after(maps, part);
        print_part(form, part, &page, ended)?;
    }
    print_end(form, runs.last(), maps)
}

/// Returns how many maps there are after a part.
fn maps_after(maps: u64, part: Part) -> u64
    ensures { result ≡ maps_after maps part }
{
    match part {
        Part::Map { maps, .. } => u64::from(maps),
        Part::Info { .. } => maps,
        Part::Page { .. } => maps,
    }
}

/// Prints what a part says, after the run that has ended before it.
fn print_part<F: Form>(
    form: &mut F,
    part: Part,
    page: &Page,
    ended: Option<(u64, u64)>,
) -> Result<(), Failed>
    ensures whole { OnOk result (Puts F.style (part_facts part page.now ended) (F.written form.old)
        (F.written form.new)) }
    ensures front { PutsFront F.style (part_facts part page.now ended) (F.written form.old) (F.written form.new) }
    ensures counted { F.faults form.old ≤ F.faults form.new }
    ensures cause { OnErr result (HasFailed (F.faults form.old) (F.faults form.new) (F.refused form.new)) }
{
    print_info(form, part, page)?;
    print_any(form, block_run(ended))
}

/// Prints what an info page says.
#[inline(never)]
fn print_info<F: Form>(form: &mut F, part: Part, page: &Page) -> Result<(), Failed>
    ensures whole { OnOk result (Puts F.style (facts_of_info part page.now) (F.written form.old)
        (F.written form.new)) }
    ensures front { PutsFront F.style (facts_of_info part page.now) (F.written form.old) (F.written form.new) }
    ensures counted { F.faults form.old ≤ F.faults form.new }
    ensures cause { OnErr result (HasFailed (F.faults form.old) (F.faults form.new) (F.refused form.new)) }
{
    match part {
        Part::Info { .. } => print(form, info_facts(page).as_slice()),
        Part::Map { .. } => print(form, &[]),
        Part::Page { .. } => print(form, &[]),
    }
}

/// Prints the last run, and how many maps there are.
fn print_end<F: Form>(form: &mut F, last: Option<(u64, u64)>, maps: u64) -> Result<(), Failed>
    ensures whole { OnOk result (Puts F.style (map block_run (list_of last) ++ Maps maps
        ∷ []) (F.written form.old) (F.written form.new)) }
    ensures front { PutsFront F.style (map block_run (list_of last) ++ Maps maps
        ∷ []) (F.written form.old) (F.written form.new) }
    ensures counted { F.faults form.old ≤ F.faults form.new }
    ensures cause { OnErr result (HasFailed (F.faults form.old) (F.faults form.new) (F.refused form.new)) }
{
    print_any(form, block_run(last))?;
    print(form, &[Fact::Maps(maps)])
}

fn block_run(run: Option<(u64, u64)>) -> Option<Fact>
    ensures { list_of result ≡ map block_run (list_of run) }
{
    match run {
        Some((start, count)) => Some(Fact::BlockRun(start, count)),
        None => None,
    }
}
