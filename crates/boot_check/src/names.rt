//! The blocks that an image names, one after another.
ghost use Rattle.std.specs.Prelude.{◌≡◌, ◌*◌, ◌<◌, ◌≤◌, length};

use definitions::MAP_PAGE_ENTRIES;
use image_check::{Progress, Report, any_block, check_name};
use image_walk::{BlockFault, Limits, Walk};
use page_core::{Format, Page};

/// How many entries a map page has (MAP_PAGE_ENTRIES).
const ENTRIES: usize = MAP_PAGE_ENTRIES as usize;

/// What is kept of the names of an image that were checked so far.
#[derive(Drop)]
pub struct Names {
    pub limits: Limits,
    pub format: Format,
    pub walk: Walk,
    pub progress: Progress,
}

impl Names {
    ghost use Rattle.std.specs.Prelude.{◌≡◌, ◌*◌, ◌<◌, ◌≤◌, ◌++◌, ℕ, [], List, Option, OnErr, Some, length};
    ghost use Rattle.definitions.specs.Disk.{Content};
    ghost use Rattle.image_check.specs.Header.{any_block};
    ghost use Rattle.image_check.specs.Knows.{Knows};
    ghost use Rattle.image_check.specs.Told.{Tells};
    ghost use Rattle.image_check.specs.declared.finding.Finding.{Finding};
    ghost use Rattle.image_walk.specs.Names.{IsAnswer, Name, fault_of, seen};
    ghost use Rattle.image_walk.specs.Walking.{Stands, block_asked, unread_left};
    ghost use Rattle.boot_check.specs.Named.{HasNamed, TellsName, Waits};

    /// Returns the names before an image is known.
    pub(crate) fn unknown(blocks: u32, header: u32) -> Names
        ensures { result.limits ≡ any_block blocks header }
    {
        Names {
            limits: any_block(blocks, header),
            format: Format::Plain,
            walk: Walk {
                maps: 0,
                at: 0,
                map: Page::zero(),
                entry: ENTRIES,
                next: 0,
                over: true,
            },
            progress: Progress::start(),
        }
    }

    /// Returns the names before the first name of an image.
    pub(crate) fn begin(limits: Limits, format: Format, words: &mut [u64], first: u64) -> Names
        requires { limits.blocks ≤ 64 * length words.old }
        ensures limits { result.limits ≡ limits }
        ensures format { result.format ≡ format }
        ensures named { (content : Option Content) (faults : ℕ) →
            HasNamed content faults first result words.new [] [] }
        ensures room { length words.new ≡ length words.old }
    {
        let walk = Walk::begin(&limits, words, first);
        Names {
            limits,
            format,
            walk,
            progress: Progress::start(),
        }
    }

    /// Reports what is wrong with the next name, given the outcome of its block.
    pub(crate) fn tell<R: Report>(
        &mut self,
        words: &mut [u64],
        answer: Result<(), BlockFault>,
        page: &Page,
        report: &mut R,
    )
        requires { self.old.limits.blocks ≤ 64 * length words.old }
        ensures told { (first b : ℕ) (h : List Name) → Stands self.old.limits first self.old.walk words.old h →
            Knows self.old.progress h → block_asked self.old.walk ≡ Some b →
            IsAnswer (fault_of self.old.limits h b) b (seen answer page.now) →
            TellsName first b h answer page.now self.old self.new words.new
            (R.told report.old) (R.told report.new) }
        ensures fewer { (b : ℕ) → block_asked self.old.walk ≡ Some b →
            OnErr answer (unread_left self.new.walk < unread_left self.old.walk) }
        ensures limits { self.new.limits ≡ self.old.limits }
        ensures format { self.new.format ≡ self.old.format }
        ensures room { length words.new ≡ length words.old }
    {
        if let Some(visit) = self.walk.take(&self.limits, words, answer, page) {
            check_name(report, self.format, &mut self.progress, &visit, page);
        }
    }

    /// Reports what is wrong with the names that aren't read, up to the next one that is, and returns its block.
    pub(crate) fn go_on<R: Report>(&mut self, words: &mut [u64], report: &mut R) -> Option<u32>
        requires { self.old.limits.blocks ≤ 64 * length words.old }
        ensures went { (content : Option Content) (faults first : ℕ) (asked : List ℕ) (found : List Finding) →
            HasNamed content faults first self.old words.old asked found →
            (more : List Finding) × (Tells more (R.told report.old) (R.told report.new)
            × Waits content faults first self.new words.new asked (found ++ more) result) }
        ensures limits { self.new.limits ≡ self.old.limits }
        ensures format { self.new.format ≡ self.old.format }
        ensures room { length words.new ≡ length words.old }
    {
        let page = Page::zero();
        while let Some(named) = self.walk.ask(&self.limits, words) {
            let Some(why) = named.fault else {
                let _blocks = self.limits.blocks;
                return Some(named.block as u32);
            };
            self.tell(words, Err(why), &page, report);
        }
        None
    }
}
