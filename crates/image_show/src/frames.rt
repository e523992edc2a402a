//! The page frames of an image.
ghost use Rattle.std.specs.Prelude.{◌≡◌, ◌+◌, ◌<◌, ◌≤◌, ◌^◌, ◌++◌, [], List, ℕ, Bool, true, Some, IfSome, IfNone, OnOk};
ghost use Rattle.std.specs.Prelude.{OnErr, map, take};
ghost use Rattle.image_walk.specs.Names.{Name};
ghost use Rattle.image_check.specs.Numbers.{frame_of};
ghost use Rattle.image_show.specs.Reads.{Reads, ReadsOn};
ghost use Rattle.image_show.specs.Runs.{count_of, list_of};
ghost use Rattle.image_show.specs.Told.{frame_run, words_of, IsEnd};
ghost use Rattle.image_show.specs.declared.facts.fact.Fact.{Fact as OneFact};
ghost use Rattle.image_show.specs.Forms.{HasFailed, Puts, PutsFront};
ghost use Rattle.image_show.specs.Parts.{left_after, numbers_in_part, rest_of, RunsOn};
ghost use Rattle.image_show.specs.Shown.{ShowsFrames};

use crate::printing::print_any;
use crate::{Fact, Form, Part, Reading, Runs};
use definitions::WORDS_PER_PAGE;
use page_core::{Failed, Format, Page};
use sector_disk::Disk;

/// The number of words of a page.
const WORDS: u64 = WORDS_PER_PAGE as u64;

/// The index of the info page's word that says how many page frames were saved (`image_pages`, `struct swsusp_info`,
/// kernel/power/power.h).
const IMAGE_PAGES_WORD: usize = 52;

/// The bit that marks a page of zeros without a data page (this project's own).
const ZERO_BIT: u64 = 1 << 63;

/// Prints the runs of page frames as they end. It reads only the number pages.
pub(crate) fn print_frames<D: Disk, F: Form>(
    form: &mut F,
    disk: &mut D,
    reading: &mut Reading,
    format: Format,
) -> Result<(), Failed>
    requires blocks { D.block_count disk.old ≡ reading.old.walker.limits.blocks }
    requires start { Reads reading.old.walker.walk.next reading.old [] }
    ensures whole { OnOk result ((facts : List OneFact)
        × (ShowsFrames true reading.old.walker.limits reading.old.walker.walk.next
        (D.content disk.old) (D.faults disk.old) (D.faults disk.new) format facts
        × Puts F.style facts (F.written form.old) (F.written form.new))) }
    ensures front { OnErr result ((whole : Bool) × ((facts : List OneFact)
        × (ShowsFrames whole reading.old.walker.limits reading.old.walker.walk.next
        (D.content disk.old) (D.faults disk.old) (D.faults disk.new) format facts
        × PutsFront F.style facts (F.written form.old) (F.written form.new)))) }
    ensures counted { F.faults form.old ≤ F.faults form.new }
    ensures cause { OnErr result (HasFailed (F.faults form.old) (F.faults form.new) (F.refused form.new)) }
    ensures content { D.content disk.new ≡ D.content disk.old }
    ensures faults { D.faults disk.old ≤ D.faults disk.new }
    ensures orders { D.orders disk.new ≡ D.orders disk.old }
    ensures blocks { D.block_count disk.new ≡ D.block_count disk.old }
{
    let mut page = Page::zero();
    let mut runs = Runs::new();
    let mut left = None;
    while let Some(part) = next_part(reading, disk, &mut page, left) {
        let count = numbers_in_part(left, part);
        left = left_after(left, part, &page);
        print_numbers(form, &mut runs, format, &page, count)?;
    }
    print_any(form, frame_run(runs.last()))
}

/// Continues with the next block, unless no number is left.
fn next_part<D: Disk>(
    reading: &mut Reading,
    disk: &mut D,
    page: &mut Page,
    left: Option<u64>,
) -> Option<Part>
    requires { D.block_count disk.old ≡ reading.old.walker.limits.blocks }
    ensures next { IfSome result (λ part. (first : ℕ) (h : List Name) → Reads first reading.old h →
        ReadsOn first (D.content disk.old) (D.faults disk.old)
        (D.faults disk.new) h reading.old reading.new part page.new) }
    ensures end { IfNone result ((left ≡ Some 0 → ⊥) → (first : ℕ) (h : List Name) → Reads first reading.old h →
        IsEnd reading.old.walker.limits first (D.content disk.old) (D.faults disk.old) (D.faults disk.new) h) }
    ensures limits { reading.new.walker.limits ≡ reading.old.walker.limits }
    ensures content { D.content disk.new ≡ D.content disk.old }
    ensures faults { D.faults disk.old ≤ D.faults disk.new }
    ensures orders { D.orders disk.new ≡ D.orders disk.old }
    ensures blocks { D.block_count disk.new ≡ D.block_count disk.old }
{
    if let Some(0) = left {
        return None;
    }
    reading.next(disk, page)
}

/// Returns how many numbers a part has.
fn numbers_in_part(left: Option<u64>, part: Part) -> u64
    ensures count { result ≡ numbers_in_part left part }
    ensures few { result ≤ WORDS_PER_PAGE }
    ensures enough { result ≤ rest_of left }
{
    match part {
        Part::Map { .. } => 0,
        Part::Info { .. } => 0,
        Part::Page { .. } => left.unwrap_or(0).min(WORDS),
    }
}

/// Returns how many numbers are left after a part.
fn left_after(left: Option<u64>, part: Part, page: &Page) -> Option<u64>
    ensures left { result ≡ left_after left part page.now }
    ensures fits { rest_of result < 2 ^ 64 }
{
    match part {
        Part::Map { .. } => left,
        Part::Info { .. } => Some(page.word(IMAGE_PAGES_WORD)),
        Part::Page { .. } => Some(left.unwrap_or(0).saturating_sub(WORDS)),
    }
}

/// Prints the runs that end before or among the first numbers of a page.
fn print_numbers<F: Form>(
    form: &mut F,
    runs: &mut Runs,
    format: Format,
    page: &Page,
    count: u64,
) -> Result<(), Failed>
    requires few { count ≤ WORDS_PER_PAGE }
    requires room { count_of runs.old.last + count < 2 ^ 64 }
    ensures whole { OnOk result ((more : List (ℕ × ℕ))
        × (RunsOn runs.old.last runs.new.last (map (frame_of format) (take count (words_of page.now))) more
        × Puts F.style (map frame_run more) (F.written form.old) (F.written form.new))) }
    ensures front { (n : ℕ) × ((n ≤ count) × ((more : List (ℕ × ℕ))
        × (RunsOn runs.old.last runs.new.last (map (frame_of format) (take n (words_of page.now))) more
        × PutsFront F.style (map frame_run more) (F.written form.old) (F.written form.new)))) }
    ensures count { count_of runs.new.last ≤ count_of runs.old.last + count }
    ensures counted { F.faults form.old ≤ F.faults form.new }
    ensures cause { OnErr result (HasFailed (F.faults form.old) (F.faults form.new) (F.refused form.new)) }
{
    for i in 0..count {
        let ended = runs.add(frame_of(format, page.word(i as usize)));
        print_any(form, frame_run(ended))?;
    }
    Ok(())
}

/// Returns the page frame number of a word.
fn frame_of(format: Format, word: u64) -> u64
    ensures { result ≡ frame_of format word }
{
    match format {
        Format::Plain => word,
        Format::SkipZeros => word % ZERO_BIT,
    }
}

fn frame_run(run: Option<(u64, u64)>) -> Option<Fact>
    ensures { list_of result ≡ map frame_run (list_of run) }
{
    match run {
        Some((start, count)) => Some(Fact::FrameRun(start, count)),
        None => None,
    }
}
