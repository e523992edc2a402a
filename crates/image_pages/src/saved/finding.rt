ghost use Rattle.std.specs.Prelude.{◌≡◌, ◌+◌, ◌<◌, ◌≤◌, ◌^◌, ℕ, List, [], ◌∷◌, length, IfOk, OnErr};
ghost use Rattle.image_check.specs.Info.{counts_in};
ghost use Rattle.image_pages.specs.Stands.{Stands};
ghost use Rattle.image_pages.specs.Ahead.{GivesMore, GivesOne, HasInfo, HasMore, IsAhead, Seeks, SeeksAt};
ghost use Rattle.image_pages.specs.Found.{Finds};

use crate::saved::words::{data_words, find_word, has_page};
use crate::{Next, Opened, Pages, Reader};
use definitions::{WORDS_PER_PAGE, number_page_count};
use image_check::{Counts, Report};
use page_core::{Format, NoMemory, Page};
use sector_disk::Disk;
use std::alloc::Global;

/// How many numbers a page of page frame numbers has.
const NUMBERS: u64 = WORDS_PER_PAGE as u64;

/// The result of looking for the page of a page frame.
#[derive(Clone, Copy, Debug, PartialEq, Eq)]
pub enum Found {
    /// The header block, if the disk has it, isn't marked.
    NoImage,
    /// The header block, or the first named block that has findings, was refused; the findings were reported.
    Refused,
    /// The page frame wasn't saved.
    NoPage,
    Page,
}

/// The result of looking for the number of a page frame.
#[derive(Clone, Copy)]
enum Search {
    Refused,
    Nowhere,
    /// The number is on the number page that was read last, and the page is zeros.
    Zeros,
    /// The number is there too, `lists` number pages come after that page, and the page is data page `wanted`, from 1.
    Ahead { lists: u64, wanted: u64 },
}

/// Reads the saved page of a page frame in the image of the area whose header lies in block `header`. The image is read
/// up to the data page, or, if the page frame has none, up to the page of its number, or, if it wasn't saved, up to the
/// last number page.
pub fn page_of<D: Disk, R: Report>(
    alloc: Global,
    disk: &mut D,
    header: u32,
    frame: u64,
    into: &mut Page,
    report: &mut R,
) -> Result<Found, NoMemory>
    ensures found { IfOk result (Finds (D.content disk.old) (D.block_count disk.old) header
        (D.faults disk.old) (D.faults disk.new) (R.told report.old) (R.told report.new) frame into.new) }
    ensures untold { OnErr result (R.told report.new ≡ R.told report.old) }
    ensures content { D.content disk.new ≡ D.content disk.old }
    ensures faults { D.faults disk.old ≤ D.faults disk.new }
    ensures orders { D.orders disk.new ≡ D.orders disk.old }
    ensures blocks { D.block_count disk.new ≡ D.block_count disk.old }
{
    match Pages::open(alloc, disk, header, report)? {
        Opened::NoImage => Ok(Found::NoImage),
        Opened::Refused => Ok(Found::Refused),
        Opened::Open(mut pages) => Ok(find(&mut pages, disk, report, frame, into)),
    }
}

/// Reads the page of a page frame in an image of which nothing was read yet.
fn find<D: Disk, R: Report>(
    pages: &mut Pages,
    disk: &mut D,
    report: &mut R,
    frame: u64,
    into: &mut Page,
) -> Found
    requires { (header : ℕ) × Stands (D.content disk.old) (D.block_count disk.old) header pages.old [] }
    ensures found { (header : ℕ) → Stands (D.content disk.old) (D.block_count disk.old) header pages.old [] →
        Finds (D.content disk.old) (D.block_count disk.old) header
        (D.faults disk.old) (D.faults disk.new) (R.told report.old) (R.told report.new) frame into.new result }
    ensures content { D.content disk.new ≡ D.content disk.old }
    ensures faults { D.faults disk.old ≤ D.faults disk.new }
    ensures orders { D.orders disk.new ≡ D.orders disk.old }
    ensures blocks { D.block_count disk.new ≡ D.block_count disk.old }
{
    if !read_page(pages, disk, report, into) {
        return Found::Refused;
    }
    let Some(counts) = pages.counts() else {
        unreachable!()
    };
    match find_number(pages, disk, report, counts, frame, into) {
        Search::Refused => Found::Refused,
        Search::Nowhere => Found::NoPage,
        Search::Zeros => {
            *into = Page::zero();
            Found::Page
        }
        Search::Ahead { lists, wanted } => read_data(pages, disk, report, lists, wanted, into),
    }
}

/// Reads data page `wanted`, counted from 1, after `lists` more number pages.
fn read_data<D: Disk, R: Report>(
    pages: &mut Pages,
    disk: &mut D,
    report: &mut R,
    lists: u64,
    wanted: u64,
    into: &mut Page,
) -> Found
    requires { (header : ℕ) × ((info : List ℕ) × ((listed : List (List ℕ)) × ((frame : ℕ) ×
        (Stands (D.content disk.old) (D.block_count disk.old) header pages.old (info ∷ listed)
        × IsAhead pages.old.format listed (counts_in info).image_pages frame lists wanted)))) }
    ensures found { (header : ℕ) (info : List ℕ) (listed : List (List ℕ)) (frame : ℕ) →
        Stands (D.content disk.old) (D.block_count disk.old) header pages.old (info ∷ listed) →
        IsAhead pages.old.format listed (counts_in info).image_pages frame lists wanted →
        Finds (D.content disk.old) (D.block_count disk.old) header
        (D.faults disk.old) (D.faults disk.new) (R.told report.old) (R.told report.new) frame into.new result }
    ensures content { D.content disk.new ≡ D.content disk.old }
    ensures faults { D.faults disk.old ≤ D.faults disk.new }
    ensures orders { D.orders disk.new ≡ D.orders disk.old }
    ensures blocks { D.block_count disk.new ≡ D.block_count disk.old }
{
    if !read_ahead(pages, disk, report, lists, into) {
        return Found::Refused;
    }
    if !read_ahead(pages, disk, report, wanted, into) {
        return Found::Refused;
    }
    Found::Page
}

/// Reads number pages up to one that has the number of a page frame.
fn find_number<D: Disk, R: Report>(
    pages: &mut Pages,
    disk: &mut D,
    report: &mut R,
    counts: Counts,
    frame: u64,
    page: &mut Page,
) -> Search
    requires { (header : ℕ) × ((info : List ℕ) ×
        HasInfo (D.content disk.old) (D.block_count disk.old) header pages.old counts info) }
    ensures seeks { (header : ℕ) (info : List ℕ) →
        HasInfo (D.content disk.old) (D.block_count disk.old) header pages.old counts info →
        Seeks (D.content disk.old) (D.block_count disk.old) header (D.faults disk.old) (D.faults disk.new)
        (R.told report.old) (R.told report.new) pages.old.format counts info frame pages.new result }
    ensures format { pages.new.format ≡ pages.old.format }
    ensures content { D.content disk.new ≡ D.content disk.old }
    ensures faults { D.faults disk.old ≤ D.faults disk.new }
    ensures orders { D.orders disk.new ≡ D.orders disk.old }
    ensures blocks { D.block_count disk.new ≡ D.block_count disk.old }
{
    let format = pages.format();
    let image_pages = counts.image_pages;
    let number_pages = number_page_count(image_pages);
    let mut earlier = 0;
    for k in 0..number_pages {
        if !read_page(pages, disk, report, page) {
            return Search::Refused;
        }
        let count = count_on_page(image_pages - NUMBERS * k);
        if let Some(i) = find_word(page, format, count, frame) {
            return search_at(page, format, i, number_pages - k - 1, earlier);
        }
        earlier += data_words(page, format, count);
    }
    Search::Nowhere
}

/// Returns how many of the numbers that are left are on a page.
fn count_on_page(left: u64) -> u64
    ensures few { left ≤ WORDS_PER_PAGE → result ≡ left }
    ensures full { WORDS_PER_PAGE ≤ left → result ≡ WORDS_PER_PAGE }
    ensures page { result ≤ WORDS_PER_PAGE }
    ensures left { result ≤ left }
{
    if left < NUMBERS { left } else { NUMBERS }
}

/// Returns the search result for word `i` of a page. `lists` number pages follow the page, and the numbers of the pages
/// before it have `earlier` data pages.
/// precede.
fn search_at(page: &Page, format: Format, i: u64, lists: u64, earlier: u64) -> Search
    requires word { i < WORDS_PER_PAGE }
    requires few { earlier + i + 1 < 2 ^ 64 }
    ensures { SeeksAt format page.now i lists earlier result }
{
    if has_page(format, page.word(i as usize)) {
        Search::Ahead {
            lists,
            wanted: earlier + data_words(page, format, i) + 1,
        }
    } else {
        Search::Zeros
    }
}

/// Reads `count` pages, and returns whether all were read.
pub fn read_ahead<D: Disk, R: Report>(
    pages: &mut Pages,
    disk: &mut D,
    report: &mut R,
    count: u64,
    into: &mut Page,
) -> bool
    requires { (header : ℕ) × ((info : List ℕ) × ((rest : List (List ℕ)) ×
        (Stands (D.content disk.old) (D.block_count disk.old) header pages.old (info ∷ rest)
        × (length (info ∷ rest) + count ≤ (counts_in info).pages)))) }
    ensures gives { (header : ℕ) (info : List ℕ) (rest : List (List ℕ)) →
        Stands (D.content disk.old) (D.block_count disk.old) header pages.old (info ∷ rest) →
        length (info ∷ rest) + count ≤ (counts_in info).pages →
        GivesMore (D.content disk.old) (D.block_count disk.old) header (D.faults disk.old) (D.faults disk.new)
        (R.told report.old) (R.told report.new) (info ∷ rest) pages.new into.new count result }
    ensures format { pages.new.format ≡ pages.old.format }
    ensures content { D.content disk.new ≡ D.content disk.old }
    ensures faults { D.faults disk.old ≤ D.faults disk.new }
    ensures orders { D.orders disk.new ≡ D.orders disk.old }
    ensures blocks { D.block_count disk.new ≡ D.block_count disk.old }
{
    for _ in 0..count {
        if !read_page(pages, disk, report, into) {
            return false;
        }
    }
    true
}

/// Reads a page that the image has, and returns whether it was read.
pub fn read_page<D: Disk, R: Report>(
    pages: &mut Pages,
    disk: &mut D,
    report: &mut R,
    page: &mut Page,
) -> bool
    requires { (header : ℕ) × ((given : List (List ℕ)) ×
        (Stands (D.content disk.old) (D.block_count disk.old) header pages.old given × HasMore given)) }
    ensures gives { (header : ℕ) (given : List (List ℕ)) →
        Stands (D.content disk.old) (D.block_count disk.old) header pages.old given → HasMore given →
        GivesOne (D.content disk.old) (D.block_count disk.old) header (D.faults disk.old) (D.faults disk.new)
        (R.told report.old) (R.told report.new) given pages.new page.new result }
    ensures format { pages.new.format ≡ pages.old.format }
    ensures content { D.content disk.new ≡ D.content disk.old }
    ensures faults { D.faults disk.old ≤ D.faults disk.new }
    ensures orders { D.orders disk.new ≡ D.orders disk.old }
    ensures blocks { D.block_count disk.new ≡ D.block_count disk.old }
{
    match pages.next(disk, report, page) {
        Next::Page => true,
        Next::Refused => false,
        Next::End => unreachable!(),
    }
}
