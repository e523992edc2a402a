ghost use Rattle.std.specs.Prelude.{◌≡◌, ◌≤◌, ◌∷◌, ◌++◌, [], IfOk, OnOk, Option};
ghost use Rattle.definitions.specs.Disk.{Content};
ghost use Rattle.expanded_disk.specs.Names.{found_map};

use crate::units::{Source, Walks};
use definitions::MAP_PAGE_ENTRIES;
use image_check::{Finding, Place};
use image_walk::{BlockFault, Limits, Visit, Walker};
use overlay_disk::Original;
use page_core::{NoMemory, Page};
use std::alloc::Global;

/// How many entries a map page has (MAP_PAGE_ENTRIES).
const ENTRIES: u64 = MAP_PAGE_ENTRIES as u64;

/// What was read.
#[derive(Clone, Copy)]
pub(crate) enum Read {
    /// The next page of the chain, and the entry that names it.
    Page(Place),
    /// What is wrong with the next block that is named.
    Wrong(Finding),
}

/// Reads the pages of a chain, one after another.
#[derive(Drop)]
pub(crate) struct Chain {
    pub walker: Walker,
    /// The block of the first map.
    pub first: u64,
    /// The blocks of the maps that were read.
    pub maps: Vec<u64>,
    /// How many pages were read.
    pub count: u64,
}

impl Chain {
    ghost use Rattle.expanded_disk.specs.Chains.{Gives, Goes, IsSameChain, StandsAt};

    /// Returns a reader before the first map.
    pub fn begin(alloc: Global, limits: &Limits, first: u64) -> Result<Chain, NoMemory>
        ensures stands { IfOk result (λ c. (content : Option Content) → StandsAt content c) }
        ensures limits { IfOk result (λ c. c.walker.limits ≡ limits.now) }
        ensures first { IfOk result (λ c. c.first ≡ first) }
        ensures count { IfOk result (λ c. c.count ≡ 0) }
    {
        Ok(Chain {
            walker: Walker::begin(alloc, limits, first)?,
            first,
            maps: Vec::new(alloc),
            count: 0,
        })
    }

    /// Reads the next page of an image with `pages` pages.
    pub fn next<B: Walks, K: Original>(
        &mut self,
        source: &mut Source<B, K>,
        pages: u64,
        page: &mut Page,
    ) -> Result<Read, NoMemory>
        requires blocks { K.state.blocks ≡ self.old.walker.limits.blocks }
        requires stands { StandsAt K.state.content self.old }
        ensures read { IfOk result
            (Gives K.state.content pages K.state.faults (B.state source.new.below).faults self.old self.new page.new) }
        ensures same { IsSameChain self.old self.new }
    {
        loop {
            if let Some(read) = self.read_name(source, pages, page)? {
                return Ok(read);
            }
        }
    }

    /// Reads the next block that is named. Returns `None` if that is a map.
    fn read_name<B: Walks, K: Original>(
        &mut self,
        source: &mut Source<B, K>,
        pages: u64,
        page: &mut Page,
    ) -> Result<Option<Read>, NoMemory>
        requires blocks { K.state.blocks ≡ self.old.walker.limits.blocks }
        requires stands { StandsAt K.state.content self.old }
        ensures read { IfOk result
            (Goes K.state.content pages K.state.faults (B.state source.new.below).faults self.old self.new page.new) }
        ensures same { IsSameChain self.old self.new }
    {
        match source.step(&mut self.walker, page) {
            None => unreachable!(),
            Some(Visit::Map { map, block, answer }) => match answer {
                Ok(()) => {
                    add_block(&mut self.maps, block)?;
                    Ok(None)
                }
                Err(why) => Ok(Some(Read::Wrong(found_map(map, block, why, pages)))),
            },
            Some(
                Visit::Entry {
                    map,
                    at,
                    entry,
                    answer,
                    ..
                },
            ) => {
                let place = Place { map, at, entry };
                match answer {
                    Ok(()) => {
                        self.count = ENTRIES * u64::from(map).saturating_sub(1)
                            + u64::from(entry)
                            + 1;
                        Ok(Some(Read::Page(place)))
                    }
                    Err(why) => Ok(Some(Read::Wrong(Finding::Entry { place, why }))),
                }
            }
        }
    }
}

/// Returns what is wrong with a block that is named as a map and isn't read.
fn found_map(map: u32, block: u64, why: BlockFault, pages: u64) -> Finding
    ensures { result ≡ found_map map block why pages }
{
    if block == 0 && map > 1 {
        Finding::Ends {
            map: map - 1,
            pages,
        }
    } else {
        Finding::Map { map, why }
    }
}

/// Adds the block of a map.
fn add_block(maps: &mut Vec<u64>, block: u64) -> Result<(), NoMemory>
    ensures { OnOk result (maps.new.items ≡ maps.old.items ++ block ∷ []) }
{
    maps.push(block).map_err(|_| NoMemory)
}
