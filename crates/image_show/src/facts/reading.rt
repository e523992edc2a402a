ghost use Rattle.std.specs.Prelude.{List, Ok, IfSome, IfNone};
ghost use Rattle.image_walk.specs.Names.{Name, page_at};
ghost use Rattle.image_walk.specs.Walking.{IsPlaced, name_of};
ghost use Rattle.image_show.specs.Reads.{EndsPart, TakesPart, HasWanted};

use crate::facts::Part;
use image_walk::{Limits, Visit, Walker};
use page_core::{NoMemory, Page};
use sector_disk::Disk;
use std::alloc::Global;

/// The index of the info page's word that says how many pages the image has (`pages`, `struct swsusp_info`,
/// kernel/power/power.h).
const PAGES_WORD: usize = 53;

/// Reads the blocks of an image, up to its last page: to the first block that can't be one of the image or can't be
/// read, or to an entry after the last page.
#[derive(Drop)]
pub struct Reading {
    walker: Walker,
    /// How many more pages are wanted, once the info page was read.
    wanted: Option<u64>,
}

impl Reading {
    ghost use Rattle.std.specs.Prelude.{◌≡◌, ◌≤◌, ℕ, List, [], IfOk, IfSome, IfNone};
    ghost use Rattle.image_walk.specs.Names.{Name};
    ghost use Rattle.image_show.specs.Reads.{Reads, ReadsOn};
    ghost use Rattle.image_show.specs.Told.{IsEnd};

    /// Returns a reading before the first map, which the header names.
    pub fn begin(alloc: Global, limits: &Limits, first: u64) -> Result<Reading, NoMemory>
        ensures limits { IfOk result (λ r. r.walker.limits ≡ limits.now) }
        ensures start { IfOk result (λ r. Reads first r []) }
    {
        let walker = Walker::begin(alloc, limits, first)?;
        Ok(Reading {
            walker,
            wanted: None,
        })
    }

    /// Continues with the next block, and reads it into `page`.
    pub fn next<D: Disk>(&mut self, disk: &mut D, page: &mut Page) -> Option<Part>
        requires { D.block_count disk.old ≡ self.old.walker.limits.blocks }
        ensures next { IfSome result (λ part. (first : ℕ) (h : List Name) → Reads first self.old h →
            ReadsOn first (D.content disk.old) (D.faults disk.old)
            (D.faults disk.new) h self.old self.new part page.new) }
        ensures end { IfNone result ((first : ℕ) (h : List Name) → Reads first self.old h →
            IsEnd self.old.walker.limits first (D.content disk.old) (D.faults disk.old) (D.faults disk.new) h) }
        ensures limits { self.new.walker.limits ≡ self.old.walker.limits }
        ensures content { D.content disk.new ≡ D.content disk.old }
        ensures faults { D.faults disk.old ≤ D.faults disk.new }
        ensures orders { D.orders disk.new ≡ D.orders disk.old }
        ensures blocks { D.block_count disk.new ≡ D.block_count disk.old }
    {
        let visit = self.walker.step(disk, page)?;
        part_of(&mut self.wanted, visit, page)
    }
}

/// Returns the part of the image that a visit shows, if it shows one.
fn part_of(wanted: &mut Option<u64>, visit: Visit, page: &Page) -> Option<Part>
    ensures part { IfSome result (λ part. (h : List Name) → IsPlaced h visit → HasWanted wanted.old h →
        TakesPart h (name_of visit page.now) part wanted.new page.now) }
    ensures end { IfNone result ((h : List Name) → HasWanted wanted.old h → EndsPart h (name_of visit page.now)) }
{
    match visit {
        Visit::Map { map, block, answer } => {
            if answer.is_ok() {
                Some(Part::Map { maps: map, block })
            } else {
                None
            }
        }
        Visit::Entry { block, answer, .. } => {
            if answer.is_ok() {
                page_of(wanted, block, page)
            } else {
                None
            }
        }
    }
}

/// Returns the part that a page of an entry is, if one is wanted.
fn page_of(wanted: &mut Option<u64>, block: u64, page: &Page) -> Option<Part>
    ensures part { IfSome result (λ part. (h : List Name) → HasWanted wanted.old h →
        TakesPart h (page_at block (Ok page.now)) part wanted.new page.now) }
    ensures end { IfNone result ((h : List Name) → HasWanted wanted.old h → EndsPart h (page_at block (Ok page.now))) }
{
    match *wanted {
        None => {
            *wanted = Some(page.word(PAGES_WORD).saturating_sub(1));
            Some(Part::Info { block })
        }
        Some(0) => None,
        Some(left) => {
            *wanted = Some(left - 1);
            Some(Part::Page { block })
        }
    }
}
