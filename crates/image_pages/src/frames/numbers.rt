ghost use Rattle.std.specs.Prelude.{◌≡◌, ◌≤◌, ℕ, List, []};
ghost use Rattle.image_pages.specs.Stands.{Stands};
ghost use Rattle.image_pages.specs.OpensFrames.{OpensNumbers};
ghost use Rattle.image_pages.specs.Turns.{IsAtNumber, Turns};

use crate::opened::{Opened, Reader};
use crate::{Pages, frame_of, has_page, read_ahead, read_page};
use definitions::{WORDS_PER_PAGE, number_page_count};
use image_check::{Counts, Report};
use image_format::info::{Info, decode};
use page_core::{NoMemory, Page};
use sector_disk::Disk;
use std::alloc::Global;

/// How many numbers a page of page frame numbers has.
const NUMBERS: u64 = WORDS_PER_PAGE as u64;

/// The numbers of the saved page frames of an image, in ascending order. Only its number pages are read, up to the
/// first named block that has findings. It takes memory of one bit for each block of the disk.
#[derive(Drop)]
pub struct Numbers {
    info: Page,
    /// How many page frames were saved.
    count: u64,
    given: u64,
    /// The reader after the number page that holds the number given last.
    pages: Pages,
    /// That number page.
    listed: Page,
}

/// The next result.
#[derive(Clone, Copy, Debug, PartialEq, Eq)]
pub enum NextNumber {
    /// The page frame of this number was saved.
    Frame(u64),
    /// All numbers were given.
    End,
    /// The first named block with findings was reached; they were reported.
    Refused,
}

/// The next result, with whether the number has a data page.
#[derive(Clone, Copy)]
pub(crate) enum NextWord {
    Frame { number: u64, has_data: bool },
    End,
    Refused,
}

impl Reader for Numbers {
    ghost use Rattle.image_pages.specs.Opens.{IsBad};
    ghost use Rattle.image_pages.specs.OpensFrames.{BeginsNumbers};

    ghost begins = { BeginsNumbers };

    ghost refuses = { IsBad };

    ghost is_bad = { λ content blocks header before now told then bad. bad };

    /// Reads the header block and the info page.
    fn open<D: Disk, R: Report>(
        alloc: Global,
        disk: &mut D,
        header: u32,
        report: &mut R,
    ) -> Result<Opened<Numbers>, NoMemory> {
        match Pages::open(alloc, disk, header, report)? {
            Opened::NoImage => Ok(Opened::NoImage),
            Opened::Refused => Ok(Opened::Refused),
            Opened::Open(pages) => Ok(begin(pages, disk, report)),
        }
    }
}

impl Numbers {
    ghost use Rattle.std.specs.Prelude.{◌≡◌, ◌≤◌, ℕ, List, [], Option, IfOk, OnErr};
    ghost use Rattle.definitions.specs.Disk.{Content};
    ghost use Rattle.definitions.specs.InfoPage.{info_of};
    ghost use Rattle.image_check.specs.Info.{counts_in};
    ghost use Rattle.image_pages.specs.Chain.{IsChainPage};
    ghost use Rattle.image_pages.specs.Stands.{Stands};
    ghost use Rattle.image_pages.specs.Ahead.{HasInfo};
    ghost use Rattle.image_pages.specs.Numbered.{HasNumbered};
    ghost use Rattle.image_pages.specs.Numbered.{HasTooMany};
    ghost use Rattle.image_pages.specs.SaysNumber.{SaysNumber};
    ghost use Rattle.image_pages.specs.SaysWord.{SaysWord};
    ghost use Rattle.image_pages.specs.Ends.{IsRefused};

    /// Makes a reader that begins after the info page of an image, which says this.
    pub fn of(info: Page, counts: Counts, pages: Pages) -> Numbers
        ensures numbered { (content : Option Content) (blocks header : ℕ) →
            HasInfo content blocks header pages counts info → HasNumbered content blocks header result [] }
        ensures info { result.info ≡ info }
    {
        Numbers {
            info,
            count: counts.image_pages,
            given: 0,
            pages,
            listed: Page::zero(),
        }
    }

    /// Reads the next number. After an end or a refusal it isn't called again. The numbers that were given are those of
    /// the first page frames that the chain of the disk names; an end says that they are all.
    pub fn next<D: Disk, R: Report>(&mut self, disk: &mut D, report: &mut R) -> NextNumber
        requires { (header : ℕ) × ((given : List ℕ) ×
            HasNumbered (D.content disk.old) (D.block_count disk.old) header self.old given) }
        ensures says { (header : ℕ) (given : List ℕ) →
            HasNumbered (D.content disk.old) (D.block_count disk.old) header self.old given →
            SaysNumber (D.content disk.old) (D.block_count disk.old) header (D.faults disk.old) (D.faults disk.new)
            (R.told report.old) (R.told report.new) given self.new result }
        ensures info { self.new.info ≡ self.old.info }
        ensures content { D.content disk.new ≡ D.content disk.old }
        ensures faults { D.faults disk.old ≤ D.faults disk.new }
        ensures orders { D.orders disk.new ≡ D.orders disk.old }
        ensures blocks { D.block_count disk.new ≡ D.block_count disk.old }
    {
        match self.next_word(disk, report) {
            NextWord::Frame { number, .. } => NextNumber::Frame(number),
            NextWord::End => NextNumber::End,
            NextWord::Refused => NextNumber::Refused,
        }
    }

    /// Reads the next number, and whether it has a data page.
    pub(crate) fn next_word<D: Disk, R: Report>(&mut self, disk: &mut D, report: &mut R) -> NextWord
        requires { (header : ℕ) × ((given : List ℕ) ×
            HasNumbered (D.content disk.old) (D.block_count disk.old) header self.old given) }
        ensures says { (header : ℕ) (given : List ℕ)
            (h : HasNumbered (D.content disk.old) (D.block_count disk.old) header self.old given) →
            SaysWord (D.content disk.old) (D.block_count disk.old) header (D.faults disk.old) (D.faults disk.new)
            (R.told report.old) (R.told report.new) given self.old h self.new result }
        ensures info { self.new.info ≡ self.old.info }
        ensures content { D.content disk.new ≡ D.content disk.old }
        ensures faults { D.faults disk.old ≤ D.faults disk.new }
        ensures orders { D.orders disk.new ≡ D.orders disk.old }
        ensures blocks { D.block_count disk.new ≡ D.block_count disk.old }
    {
        if self.given == self.count {
            return NextWord::End;
        }
        if !turn(&mut self.pages, disk, report, self.given, &mut self.listed) {
            return NextWord::Refused;
        }
        let format = self.pages.format();
        let word = self.listed.word((self.given % NUMBERS) as usize);
        self.given += 1;
        NextWord::Frame {
            number: frame_of(format, word),
            has_data: has_page(format, word),
        }
    }

    /// Reads up to the number page that is wrong: more numbers have a data page than the image has.
    pub(crate) fn refuse<D: Disk, R: Report>(&mut self, disk: &mut D, report: &mut R)
        requires { (header : ℕ) × ((given : List ℕ) ×
            ((h : HasNumbered (D.content disk.old) (D.block_count disk.old) header self.old given) ×
            HasTooMany (D.content disk.old) (D.block_count disk.old) header self.old given h)) }
        ensures refused { (header : ℕ) (given : List ℕ)
            (h : HasNumbered (D.content disk.old) (D.block_count disk.old) header self.old given) →
            HasTooMany (D.content disk.old) (D.block_count disk.old) header self.old given h →
            (pages : List (List ℕ)) × IsRefused (D.content disk.old) (D.block_count disk.old) header
            (D.faults disk.old) (D.faults disk.new) (R.told report.old) (R.told report.new) pages }
        ensures info { self.new.info ≡ self.old.info }
        ensures content { D.content disk.new ≡ D.content disk.old }
        ensures faults { D.faults disk.old ≤ D.faults disk.new }
        ensures orders { D.orders disk.new ≡ D.orders disk.old }
        ensures blocks { D.block_count disk.new ≡ D.block_count disk.old }
    {
        let left = number_page_count(self.count) - number_page_count(self.given);
        if read_ahead(&mut self.pages, disk, report, left, &mut self.listed) {
            unreachable!()
        }
    }

    /// Returns what the info page says: whose image it is, and how many page frames were saved.
    pub fn info(&self) -> Info
        ensures said { result ≡ info_of self.now.info }
        ensures chain { (content : Option Content) (blocks header : ℕ) (given : List ℕ) →
            HasNumbered content blocks header self.now given → IsChainPage content header 0 self.now.info }
    {
        decode(&self.info)
    }

    /// Returns how many page frames were saved, by the info page.
    pub fn count(&self) -> u64
        ensures count { (content : Option Content) (blocks header : ℕ) (given : List ℕ) →
            HasNumbered content blocks header self.now given → result ≡ (counts_in self.now.info).image_pages }
    {
        self.count
    }

    /// Returns a reader of the pages after the last number page that was read, which continues independently.
    pub(crate) fn pages_ahead(&self) -> Result<Pages, NoMemory>
        ensures stands { IfOk result (λ p. (content : Option Content) (blocks header : ℕ) (given : List (List ℕ)) →
            Stands content blocks header self.now.pages given → Stands content blocks header p given) }
    {
        self.pages.fork()
    }
}

/// Begins to read an image of which nothing was read yet.
fn begin<D: Disk, R: Report>(mut pages: Pages, disk: &mut D, report: &mut R) -> Opened<Numbers>
    requires { (header : ℕ) × Stands (D.content disk.old) (D.block_count disk.old) header pages [] }
    ensures opened { (header : ℕ) → Stands (D.content disk.old) (D.block_count disk.old) header pages [] →
        OpensNumbers (D.content disk.old) (D.block_count disk.old) header
        (D.faults disk.old) (D.faults disk.new) (R.told report.old) (R.told report.new) result }
    ensures content { D.content disk.new ≡ D.content disk.old }
    ensures faults { D.faults disk.old ≤ D.faults disk.new }
    ensures orders { D.orders disk.new ≡ D.orders disk.old }
    ensures blocks { D.block_count disk.new ≡ D.block_count disk.old }
{
    let mut info = Page::zero();
    if !read_page(&mut pages, disk, report, &mut info) {
        return Opened::Refused;
    }
    let Some(counts) = pages.counts() else {
        unreachable!()
    };
    Opened::Open(Numbers::of(info, counts, pages))
}

/// Reads up to the number page of the next number, if that isn't the page of the last one, and returns whether it was
/// read.
fn turn<D: Disk, R: Report>(
    numbers: &mut Pages,
    disk: &mut D,
    report: &mut R,
    given: u64,
    listed: &mut Page,
) -> bool
    requires { (header : ℕ) × ((info : List ℕ) × ((pages : List (List ℕ)) ×
        IsAtNumber (D.content disk.old) (D.block_count disk.old) header numbers.old info pages given listed.old)) }
    ensures turns { (header : ℕ) (info : List ℕ) (pages : List (List ℕ)) →
        IsAtNumber (D.content disk.old) (D.block_count disk.old) header numbers.old info pages given listed.old →
        Turns (D.content disk.old) (D.block_count disk.old) header (D.faults disk.old) (D.faults disk.new)
        (R.told report.old) (R.told report.new) info pages given numbers.new listed.new result }
    ensures format { numbers.new.format ≡ numbers.old.format }
    ensures content { D.content disk.new ≡ D.content disk.old }
    ensures faults { D.faults disk.old ≤ D.faults disk.new }
    ensures orders { D.orders disk.new ≡ D.orders disk.old }
    ensures blocks { D.block_count disk.new ≡ D.block_count disk.old }
{
    if given % NUMBERS > 0 {
        return true;
    }
    read_page(numbers, disk, report, listed)
}
