ghost use Rattle.std.specs.Prelude.{◌≡◌};
ghost use Rattle.image_pages.specs.Visited.{page_seen};

use crate::accepting::{accept_header, accept_name};
use crate::opened::{Opened, Reader};
use image_check::{Counts, Finding, Progress, Report, format_of, limits_of, mark_in};
use image_format::AreaKind;
use image_walk::{Visit, Walker};
use page_core::{Format, NoMemory, Page};
use sector_disk::Disk;
use std::alloc::Global;

/// The pages of the stream of an image in an area: the info page, the pages of page frame numbers and the data pages,
/// one after another, up to the first named block that has findings. It takes memory of one bit for each block of the
/// disk.
#[derive(Drop)]
pub struct Pages {
    walker: Walker,
    format: Format,
    progress: Progress,
}

/// What comes next.
#[derive(Clone, Copy, Debug, PartialEq, Eq)]
pub enum Next {
    Page,
    /// All of the image was read, and it has no finding.
    End,
    /// The first named block with findings was reached; they were reported.
    Refused,
}

impl Reader for Pages {
    ghost use Rattle.std.proofs.Common.{inl};
    ghost use Rattle.image_pages.specs.Opens.{BeginsPages, IsBadHeader};

    ghost begins = { BeginsPages };

    ghost refuses = { IsBadHeader };

    ghost is_bad = { λ content blocks header before now told then bad. inl bad };

    /// Reads only the header block.
    fn open<D: Disk, R: Report>(
        alloc: Global,
        disk: &mut D,
        header: u32,
        report: &mut R,
    ) -> Result<Opened<Pages>, NoMemory> {
        let blocks = disk.blocks();
        if header >= blocks {
            return Ok(Opened::NoImage);
        }
        let mut page = Page::zero();
        if disk.read(header, &mut page).is_err() {
            report.tell(Finding::HeaderUnread(header));
            return Ok(Opened::Refused);
        }
        let Some(mark) = mark_in(AreaKind::read(&page)) else {
            return Ok(Opened::NoImage);
        };
        if !accept_header(report, blocks, header, mark.flags, &page) {
            return Ok(Opened::Refused);
        }
        let limits = limits_of(blocks, header, &page);
        Ok(Opened::Open(Pages {
            walker: Walker::begin(alloc, &limits, mark.first)?,
            format: format_of(mark.flags),
            progress: Progress {
                counts: None,
                previous: None,
                counted: Some(0),
            },
        }))
    }
}

impl Pages {
    ghost use Rattle.std.specs.Prelude.{◌≡◌, ◌≤◌, ℕ, List, Option, IfOk};
    ghost use Rattle.definitions.specs.Disk.{Content};
    ghost use Rattle.image_pages.specs.Clean.{counts_by};
    ghost use Rattle.image_pages.specs.Ends.{Reads, Says};
    ghost use Rattle.image_pages.specs.Stands.{Stands};

    /// Reads the next page of the image, passing over its maps. After an end or a refusal it isn't called again. The
    /// pages that were given are the first ones of the stream that the chain of the disk names; an end says that they
    /// are all, and that a whole reading of the image has no finding.
    pub fn next<D: Disk, R: Report>(
        &mut self,
        disk: &mut D,
        report: &mut R,
        page: &mut Page,
    ) -> Next
        requires { (header : ℕ) × ((given : List (List ℕ)) ×
            Stands (D.content disk.old) (D.block_count disk.old) header self.old given) }
        ensures says { (header : ℕ) (given : List (List ℕ)) →
            Stands (D.content disk.old) (D.block_count disk.old) header self.old given →
            Says (D.content disk.old) (D.block_count disk.old) header (D.faults disk.old) (D.faults disk.new)
            (R.told report.old) (R.told report.new) given self.old self.new page.new result }
        ensures format { self.new.format ≡ self.old.format }
        ensures content { D.content disk.new ≡ D.content disk.old }
        ensures faults { D.faults disk.old ≤ D.faults disk.new }
        ensures orders { D.orders disk.new ≡ D.orders disk.old }
        ensures blocks { D.block_count disk.new ≡ D.block_count disk.old }
    {
        loop {
            if let Some(next) = self.read_name(disk, report, page) {
                return next;
            }
        }
    }

    /// Reads the next named block. Returns `None` if that isn't a page of the image and nothing is wrong with it.
    fn read_name<D: Disk, R: Report>(
        &mut self,
        disk: &mut D,
        report: &mut R,
        page: &mut Page,
    ) -> Option<Next>
        requires { (header : ℕ) × ((given : List (List ℕ)) ×
            Stands (D.content disk.old) (D.block_count disk.old) header self.old given) }
        ensures reads { (header : ℕ) (given : List (List ℕ)) →
            Stands (D.content disk.old) (D.block_count disk.old) header self.old given →
            Reads (D.content disk.old) (D.block_count disk.old) header (D.faults disk.old) (D.faults disk.new)
            (R.told report.old) (R.told report.new) given self.old self.new page.new result }
        ensures format { self.new.format ≡ self.old.format }
        ensures content { D.content disk.new ≡ D.content disk.old }
        ensures faults { D.faults disk.old ≤ D.faults disk.new }
        ensures orders { D.orders disk.new ≡ D.orders disk.old }
        ensures blocks { D.block_count disk.new ≡ D.block_count disk.old }
    {
        let Some(visit) = self.walker.step(disk, page) else {
            return Some(Next::End);
        };
        if !accept_name(report, self.format, &mut self.progress, &visit, page) {
            return Some(Next::Refused);
        }
        page_seen(&visit)
    }

    /// Copies the reader: each copy continues independently.
    pub fn fork(&self) -> Result<Pages, NoMemory>
        ensures stands { IfOk result (λ p. (content : Option Content) (blocks header : ℕ) (given : List (List ℕ)) →
            Stands content blocks header self.now given → Stands content blocks header p given) }
        ensures format { IfOk result (λ p. p.format ≡ self.now.format) }
    {
        Ok(Pages {
            walker: self.walker.fork()?,
            format: self.format,
            progress: self.progress,
        })
    }

    /// Returns how the image saves pages of zeros.
    pub fn format(&self) -> Format
        ensures { result ≡ self.now.format }
    {
        self.format
    }

    /// Returns what the info page says, once it was given.
    pub fn counts(&self) -> Option<Counts>
        ensures { (content : Option Content) (blocks header : ℕ) (given : List (List ℕ)) →
            Stands content blocks header self.now given → result ≡ counts_by given }
    {
        self.progress.counts
    }
}

/// Returns the result for a page that an entry named, if it was read.
fn page_seen(visit: &Visit) -> Option<Next>
    ensures { result ≡ page_seen visit.now }
{
    match visit {
        Visit::Map { .. } => None,
        Visit::Entry { answer, .. } => match answer {
            Ok(()) => Some(Next::Page),
            Err(_) => None,
        },
    }
}
