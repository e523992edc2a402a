ghost use Rattle.std.specs.Prelude.{◌≡◌, ◌≤◌, ℕ, List, ◌∷◌};
ghost use Rattle.image_pages.specs.Turns.{Ends, IsFull};

use crate::frames::numbers::{NextWord, Numbers};
use crate::opened::{Opened, Reader};
use crate::{Pages, read_ahead, read_page};
use definitions::number_page_count;
use image_check::Report;
use image_format::info::Info;
use page_core::{NoMemory, Page};
use sector_disk::Disk;
use std::alloc::Global;

/// The saved page frames of an image, in ascending order, up to the first named block that has findings. The numbers
/// and the pages of an image lie far apart, so the image is read at two places. It takes memory of two bits for each
/// block of the disk.
#[derive(Drop)]
pub struct Frames {
    numbers: Numbers,
    /// The reader after the data page that was read last.
    pages: Pages,
    /// How many data pages are left.
    left: u64,
}

/// The next result.
#[derive(Clone, Copy, Debug, PartialEq, Eq)]
pub enum Next {
    /// The page frame of this number was saved.
    Frame(u64),
    /// All page frames were given, and the image has no finding.
    End,
    /// The first named block with findings was reached; they were reported.
    Refused,
}

impl Reader for Frames {
    ghost use Rattle.image_pages.specs.Opens.{IsBad};
    ghost use Rattle.image_pages.specs.OpensFrames.{BeginsFrames};

    ghost begins = { BeginsFrames };

    ghost refuses = { IsBad };

    ghost is_bad = { λ content blocks header before now told then bad. bad };

    /// Reads the image up to its last number page.
    fn open<D: Disk, R: Report>(
        alloc: Global,
        disk: &mut D,
        header: u32,
        report: &mut R,
    ) -> Result<Opened<Frames>, NoMemory> {
        let numbers = match Numbers::open(alloc, disk, header, report)? {
            Opened::NoImage => return Ok(Opened::NoImage),
            Opened::Refused => return Ok(Opened::Refused),
            Opened::Open(numbers) => numbers,
        };
        let mut pages = numbers.pages_ahead()?;
        let number_pages = number_page_count(numbers.count());
        let mut passed = Page::zero();
        if !read_ahead(&mut pages, disk, report, number_pages, &mut passed) {
            return Ok(Opened::Refused);
        }
        Ok(Opened::Open(Frames::of(numbers, pages)))
    }
}

impl Frames {
    ghost use Rattle.std.specs.Prelude.{◌≡◌, ◌≤◌, ℕ, List, [], Option, IfOk, OnErr};
    ghost use Rattle.definitions.specs.Disk.{Content};
    ghost use Rattle.definitions.specs.InfoPage.{info_of};
    ghost use Rattle.image_pages.specs.Chain.{IsChainPage};
    ghost use Rattle.image_pages.specs.Given.{HasGiven, HasPassed};
    ghost use Rattle.image_pages.specs.SavedFrames.{SavedFrame};
    ghost use Rattle.image_pages.specs.Says.{Says};

    /// Makes a reader from numbers of which none was given, and the pages after all number pages.
    pub fn of(numbers: Numbers, pages: Pages) -> Frames
        requires { (content : Option Content) × ((blocks : ℕ) × ((header : ℕ) ×
            HasPassed content blocks header numbers pages)) }
        ensures given { (content : Option Content) (blocks header : ℕ) →
            HasPassed content blocks header numbers pages → HasGiven content blocks header result [] }
        ensures info { result.numbers.info ≡ numbers.info }
    {
        let Some(counts) = pages.counts() else {
            unreachable!()
        };
        let left = counts.pages - number_page_count(numbers.count()) - 1;
        Frames {
            numbers,
            pages,
            left,
        }
    }

    /// Reads the next saved page frame; if its number says that its page is zeros, no data page is read. After an end
    /// or a refusal it isn't called again. The page frames that were given are the first ones that the chain of the
    /// disk names; an end says that they are all.
    pub fn next<D: Disk, R: Report>(
        &mut self,
        disk: &mut D,
        report: &mut R,
        page: &mut Page,
    ) -> Next
        requires { (header : ℕ) × ((given : List SavedFrame) ×
            HasGiven (D.content disk.old) (D.block_count disk.old) header self.old given) }
        ensures says { (header : ℕ) (given : List SavedFrame) →
            HasGiven (D.content disk.old) (D.block_count disk.old) header self.old given →
            Says (D.content disk.old) (D.block_count disk.old) header (D.faults disk.old) (D.faults disk.new)
            (R.told report.old) (R.told report.new) given self.new page.new result }
        ensures info { self.new.numbers.info ≡ self.old.numbers.info }
        ensures content { D.content disk.new ≡ D.content disk.old }
        ensures faults { D.faults disk.old ≤ D.faults disk.new }
        ensures orders { D.orders disk.new ≡ D.orders disk.old }
        ensures blocks { D.block_count disk.new ≡ D.block_count disk.old }
    {
        let (number, has_data) = match self.numbers.next_word(disk, report) {
            NextWord::Frame { number, has_data } => (number, has_data),
            NextWord::End => return end(&mut self.pages, disk, report, page),
            NextWord::Refused => return Next::Refused,
        };
        if !has_data {
            *page = Page::zero();
            return Next::Frame(number);
        }
        if self.left == 0 {
            self.numbers.refuse(disk, report);
            return Next::Refused;
        }
        if !read_page(&mut self.pages, disk, report, page) {
            return Next::Refused;
        }
        self.left -= 1;
        Next::Frame(number)
    }

    /// Returns what the info page says: whose image it is, and how many page frames were saved.
    pub fn info(&self) -> Info
        ensures said { result ≡ info_of self.now.numbers.info }
        ensures chain { (content : Option Content) (blocks header : ℕ) (given : List SavedFrame) →
            HasGiven content blocks header self.now given → IsChainPage content header 0 self.now.numbers.info }
    {
        self.numbers.info()
    }
}

/// Reads an image to its end after all its pages were read.
fn end<D: Disk, R: Report>(pages: &mut Pages, disk: &mut D, report: &mut R, page: &mut Page) -> Next
    requires { (header : ℕ) × ((info : List ℕ) × ((rest : List (List ℕ)) ×
        IsFull (D.content disk.old) (D.block_count disk.old) header pages.old info rest)) }
    ensures ends { (header : ℕ) (info : List ℕ) (rest : List (List ℕ)) →
        IsFull (D.content disk.old) (D.block_count disk.old) header pages.old info rest →
        Ends (D.content disk.old) (D.block_count disk.old) header (D.faults disk.old) (D.faults disk.new)
        (R.told report.old) (R.told report.new) (info ∷ rest) result }
    ensures content { D.content disk.new ≡ D.content disk.old }
    ensures faults { D.faults disk.old ≤ D.faults disk.new }
    ensures orders { D.orders disk.new ≡ D.orders disk.old }
    ensures blocks { D.block_count disk.new ≡ D.block_count disk.old }
{
    match pages.next(disk, report, page) {
        crate::Next::End => Next::End,
        crate::Next::Refused => Next::Refused,
        crate::Next::Page => unreachable!(),
    }
}
