ghost use Rattle.std.specs.Prelude.{◌≡◌, ◌<◌, ◌≤◌, ◌↔◌, Err, IsOk, IfOk, IfErr, IfSome, IsSome};
ghost use Rattle.definitions.specs.SwapMap.{map_entry, map_link};
ghost use Rattle.definitions.specs.declared.counts.TheConstants.{MAP_PAGE_ENTRIES};
ghost use Rattle.image_format.specs.MapPages.{NumberedPage};

use crate::map::ENTRIES;
use page_core::Page;
use std::marker::Model;
use thiserror::Error;

/// What is wrong with a chain of map pages.
#[derive(Clone, Copy, Debug, PartialEq, Eq, Error)]
pub enum ChainFault {
    /// An entry is 0, or an entry or a link is above the limit.
    #[error("bad block {block}")]
    BadBlock { block: u64 },
    /// There is no next map page, though entries are wanted. Map pages count from 1.
    #[error("chain ends {map}")]
    ChainEnds { map: u32 },
}

/// A map page that is being read. A contract sees the page and its number.
#[derive(Drop)]
pub struct MapReader {
    page: Page,
    map: u32,
}

impl Model for MapReader {
    ghost Value = { NumberedPage };

    ghost view = { λ a. record { page = a.page; map = a.map } };
}

impl MapReader {
    /// Makes a reader of this page, the map page with this number.
    pub fn of(page: &Page, map: u32) -> MapReader
        ensures page { result.page ≡ page.now }
        ensures map { result.map ≡ map }
    {
        MapReader {
            page: Page::from_bytes(page.as_bytes()),
            map,
        }
    }

    /// Returns entry k: the block of a page of the image.
    pub fn entry(&self, k: u32, limit: u32) -> Result<u32, ChainFault>
        requires { k < MAP_PAGE_ENTRIES }
        ensures block { IfOk result (λ block. block ≡ map_entry self.now.page k) }
        ensures fits { IsOk result ↔ ((0 < map_entry self.now.page k) × (map_entry self.now.page k ≤ limit)) }
        ensures fault { IfErr result (λ fault. fault ≡ ChainFault.BadBlock (map_entry self.now.page k)) }
    {
        let block = self.page.word(k as usize);
        within(block, limit).ok_or(ChainFault::BadBlock { block })
    }

    /// Returns the block of the next map page.
    pub fn next(&self, limit: u32) -> Result<u32, ChainFault>
        ensures block { IfOk result (λ block. block ≡ map_link self.now.page) }
        ensures fits { IsOk result ↔ ((0 < map_link self.now.page) × (map_link self.now.page ≤ limit)) }
        ensures ends { map_link self.now.page ≡ 0 → result ≡ Err (ChainFault.ChainEnds self.now.map) }
        ensures beyond { limit < map_link self.now.page → result ≡ Err (ChainFault.BadBlock (map_link self.now.page)) }
    {
        let block = self.page.word(ENTRIES);
        if block == 0 {
            return Err(ChainFault::ChainEnds { map: self.map });
        }
        within(block, limit).ok_or(ChainFault::BadBlock { block })
    }
}

/// Returns the number of a block that is neither 0 nor above the limit.
fn within(block: u64, limit: u32) -> Option<u32>
    ensures some { IsSome result ↔ ((0 < block) × (block ≤ limit)) }
    ensures same { IfSome result (λ b. b ≡ block) }
{
    if block == 0 || block > u64::from(limit) {
        None
    } else {
        Some(block as u32)
    }
}
