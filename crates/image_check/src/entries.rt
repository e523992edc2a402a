//! The blocks that maps and entries name, and the pages in them.
ghost use Rattle.std.specs.Prelude.{◌≡◌, ◌+◌, ◌<◌, ◌^◌, ◌==◌, ◌∷◌, ◌++◌, List, Ok, Some, None, if◌then◌else◌};
ghost use Rattle.page_core.specs.declared.format.Format.TheVariants.{SkipZeros};
ghost use Rattle.image_walk.specs.Names.{Name, seen};
ghost use Rattle.image_walk.specs.Walking.{IsPlaced, name_of};
ghost use Rattle.image_check.specs.Entries.{after_fault, counted_with, counts_seen, data_after, data_fault};
ghost use Rattle.image_check.specs.Entries.{data_findings, data_seen};
ghost use Rattle.image_check.specs.Entries.{ends_fault, entry_fault, is_unused, last_word, listed_findings, map_fault};
ghost use Rattle.image_check.specs.Entries.{page_findings, read_findings};
ghost use Rattle.image_check.specs.Image.{name_findings};
ghost use Rattle.image_check.specs.Knows.{Knows};
ghost use Rattle.image_check.specs.Told.{Tells};

use crate::info::{check_info, counts_in};
use crate::numbers::{NumberPage, check_numbers, data_words};
use crate::progress::Progress;
use crate::report::tell_any;
use crate::{Counts, Finding, Place, Report};
use definitions::{MAP_PAGE_ENTRIES, number_page_count};
use image_walk::{BlockFault, Visit};
use page_core::{Format, Page};

/// How many entries a map page has (MAP_PAGE_ENTRIES).
const ENTRIES: u64 = MAP_PAGE_ENTRIES as u64;

/// Reports what is wrong with a name that follows those that led to `progress`, and with the page that was read.
pub fn check_name<R: Report>(
    report: &mut R,
    format: Format,
    progress: &mut Progress,
    visit: &Visit,
    page: &Page,
)
    ensures told { (h : List Name) → IsPlaced h visit.now → Knows progress.old h →
        Tells (name_findings format h (name_of visit.now page.now)) (R.told report.old) (R.told report.new) }
    ensures known { (h : List Name) → IsPlaced h visit.now → Knows progress.old h →
        Knows progress.new (name_of visit.now page.now ∷ h) }
{
    match *visit {
        Visit::Map { map, block, answer } => tell_any(
            report,
            map_fault(progress.counts, map, block, answer),
        ),
        Visit::Entry {
            map,
            at,
            entry,
            block,
            answer,
        } => {
            let position = ENTRIES * u64::from(map).saturating_sub(1) + u64::from(entry);
            let place = Place { map, at, entry };
            tell_any(
                report,
                entry_fault(progress.counts, position, place, block, answer),
            );
            if answer.is_ok() {
                check_page(report, format, *progress, position, block, page);
            }
            *progress = after_entry(*progress, position, answer, page);
        }
    }
}

/// Returns what is wrong with the block that is named as a map.
fn map_fault(
    counts: Option<Counts>,
    map: u32,
    block: u64,
    answer: Result<(), BlockFault>,
) -> Option<Finding>
    ensures { result ≡ map_fault counts map block answer }
{
    match answer {
        Ok(()) => after_fault(counts?, map, block),
        Err(_) if block == 0 && map > 1 => ends_fault(counts?, map - 1),
        Err(why) => Some(Finding::Map { map, why }),
    }
}

fn after_fault(counts: Counts, map: u32, block: u64) -> Option<Finding>
    ensures { result ≡ after_fault (Some counts) map block }
{
    if counts.pages / ENTRIES + 1 < u64::from(map) {
        Some(Finding::AfterMaps { map, block })
    } else {
        None
    }
}

fn ends_fault(counts: Counts, map: u32) -> Option<Finding>
    ensures { result ≡ ends_fault (Some counts) map }
{
    if ENTRIES * u64::from(map) < counts.pages {
        Some(Finding::Ends {
            map,
            pages: counts.pages,
        })
    } else {
        None
    }
}

/// Returns what is wrong with the block that an entry names.
fn entry_fault(
    counts: Option<Counts>,
    position: u64,
    place: Place,
    block: u64,
    answer: Result<(), BlockFault>,
) -> Option<Finding>
    ensures { result ≡ entry_fault counts position place block answer }
{
    if !is_unused(counts, position, block) {
        answer.err().map(|why| Finding::Entry { place, why })
    } else if block == 0 {
        None
    } else {
        Some(Finding::AfterPages { place, block })
    }
}

/// Returns whether no page is wanted at a position.
fn is_unused(counts: Option<Counts>, position: u64, block: u64) -> bool
    ensures { result ≡ is_unused counts position block }
{
    match counts {
        None => position > 0 && block == 0,
        Some(counts) => counts.pages <= position,
    }
}

/// Reports what is wrong with a page that was read, and, after the last number page, with the number of data pages.
fn check_page<R: Report>(
    report: &mut R,
    format: Format,
    progress: Progress,
    position: u64,
    block: u64,
    page: &Page,
)
    requires { position < 2 ^ 42 }
    ensures { Tells (read_findings format progress.counts position block progress.previous (Ok page.now)
        ++ data_findings format progress.counts position
        (data_after progress.counts position progress.counted (Ok page.now)) (Ok page.now))
        (R.told report.old) (R.told report.new) }
{
    check_read(report, format, progress, position, block, page);
    let counted = data_after(&progress, position, Ok(()), page);
    tell_any(
        report,
        data_fault(format, progress.counts, position, counted),
    );
}

/// Reports what is wrong with a page that was read.
fn check_read<R: Report>(
    report: &mut R,
    format: Format,
    progress: Progress,
    position: u64,
    block: u64,
    page: &Page,
)
    requires { position < 2 ^ 42 }
    ensures { Tells (read_findings format progress.counts position block progress.previous (Ok page.now))
        (R.told report.old) (R.told report.new) }
{
    if is_unused(progress.counts, position, block) {
        return;
    }
    if position == 0 {
        return check_info(report, format, page);
    }
    if let Some(counts) = progress.counts {
        check_listed(report, format, counts, position, progress.previous, page);
    }
}

/// Reports what is wrong with a page after the info page.
fn check_listed<R: Report>(
    report: &mut R,
    format: Format,
    counts: Counts,
    position: u64,
    previous: Option<u64>,
    page: &Page,
)
    requires { position < 2 ^ 42 }
    ensures { Tells (listed_findings format (Some counts) position previous page.now)
        (R.told report.old) (R.told report.new) }
{
    if position <= number_page_count(counts.image_pages) {
        let of = NumberPage {
            format,
            numbers: counts.image_pages,
            page: position,
        };
        check_numbers(report, of, previous, page);
    }
}

/// Returns what is known after an entry.
fn after_entry(
    progress: Progress,
    position: u64,
    answer: Result<(), BlockFault>,
    page: &Page,
) -> Progress
    requires { position < 2 ^ 42 }
    ensures counts { result.counts ≡ (if position == 0 then counts_seen (seen answer page.now) else progress.counts) }
    ensures previous { result.previous ≡ (if position == 0 then None else last_word (seen answer page.now)) }
    ensures counted { result.counted ≡ data_after progress.counts position progress.counted (seen answer page.now) }
{
    let read = answer.is_ok();
    let counted = data_after(&progress, position, answer, page);
    if position == 0 {
        let counts = if read { Some(counts_in(page)) } else { None };
        return Progress {
            counts,
            previous: None,
            counted,
        };
    }
    let previous = if read {
        Some(page.word(MAP_PAGE_ENTRIES as usize))
    } else {
        None
    };
    Progress {
        counts: progress.counts,
        previous,
        counted,
    }
}

/// Returns how many of the numbers up to and including a page have a data page.
fn data_after(
    progress: &Progress,
    position: u64,
    answer: Result<(), BlockFault>,
    page: &Page,
) -> Option<u64>
    requires { position < 2 ^ 42 }
    ensures { result ≡ data_after progress.now.counts position progress.now.counted (seen answer page.now) }
{
    let Some(counts) = progress.counts else {
        return progress.counted;
    };
    if number_page_count(counts.image_pages) < position {
        return progress.counted;
    }
    let seen = data_seen(counts.image_pages, position, answer, page);
    counted_with(progress.counted, seen)
}

/// Returns how many numbers of a number page have a data page, if it was read.
fn data_seen(
    numbers: u64,
    position: u64,
    answer: Result<(), BlockFault>,
    page: &Page,
) -> Option<u64>
    requires { position < 2 ^ 42 }
    ensures { result ≡ data_seen numbers position (seen answer page.now) }
{
    match answer {
        Ok(()) => Some(data_words(numbers, position, page)),
        Err(_) => None,
    }
}

/// Returns the sum of two counts, if both are known.
fn counted_with(counted: Option<u64>, more: Option<u64>) -> Option<u64>
    ensures { result ≡ counted_with counted more }
{
    Some(counted?.saturating_add(more?))
}

/// Returns what is wrong with the number of data pages, which is known after the last number page.
fn data_fault(
    format: Format,
    counts: Option<Counts>,
    position: u64,
    counted: Option<u64>,
) -> Option<Finding>
    ensures { result ≡ data_fault format counts position counted }
{
    match format {
        Format::Plain => None,
        Format::SkipZeros => zeros_fault(counts?, position, counted?),
    }
}

fn zeros_fault(counts: Counts, position: u64, counted: u64) -> Option<Finding>
    ensures { result ≡ data_fault SkipZeros (Some counts) position (Some counted) }
{
    let number_pages = number_page_count(counts.image_pages);
    if position == number_pages && !follows(counts.pages, counted, number_pages) {
        Some(Finding::DataPages {
            counted,
            pages: counts.pages,
        })
    } else {
        None
    }
}

/// Returns whether `pages` is the sum of the info page, the number pages and the data pages.
fn follows(pages: u64, data_pages: u64, number_pages: u64) -> bool
    requires { number_pages < 2 ^ 63 }
    ensures { result ≡ (pages == data_pages + (number_pages + 1)) }
{
    pages > number_pages && pages - number_pages - 1 == data_pages
}
