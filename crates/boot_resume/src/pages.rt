//! The maps of an image, and the pages that they name.
ghost use Rattle.std.specs.Prelude.{◌≡◌, ◌≢◌, ℕ, ◌/◌, ◌%◌, ◌+◌, ◌^◌, ◌<◌, ◌↔◌, List, IfOk, IsTrue};
ghost use Rattle.definitions.specs.Disk.{DiskImage};
ghost use Rattle.definitions.specs.SwapMap.{map_link};
ghost use Rattle.boot_resume.specs.Calls.{Turn, page_then};
ghost use Rattle.boot_resume.specs.Memory.{Names, block_fault};
ghost use Rattle.boot_resume.specs.OnDisk.{map_fault, mark_in};
ghost use Rattle.boot_resume.specs.Wanted.{begun_map, HasMapBefore, IsReadAt, Wants, entry_of};

use crate::call::Call;
use crate::cause::Cause;
use crate::machine::Machine;
use crate::stage::{Move, Stage};
use definitions::MAP_PAGE_ENTRIES;
use image_format::Mark;
use page_core::Page;

/// How many entries a map has (MAP_PAGE_ENTRIES). The link is the word after them.
const ENTRIES: u64 = MAP_PAGE_ENTRIES as u64;

/// Returns the block of map `map`, counted from 0, if an image may name `block` as one.
pub(crate) fn map_named(machine: &Machine, mark: &Mark, map: u64, block: u64) -> Result<u64, Cause>
    ensures { Names (map_fault machine.now mark.now.last map block) block result }
{
    if block != 0 {
        return machine.checked(mark.last, block);
    }
    Err(if map == 0 {
        Cause::NoChain
    } else {
        Cause::ChainEnds { map }
    })
}

/// Returns the block of page `page` of the stream, which its map names.
pub(crate) fn page_named(
    machine: &Machine,
    mark: &Mark,
    page: u64,
    map: &Page,
) -> Result<u64, Cause>
    ensures { Names (block_fault machine.now mark.now.last (entry_of map.now page)) (entry_of map.now page) result }
{
    machine.checked(mark.last, map.word((page % ENTRIES) as usize))
}

/// Returns which map, counted from 0, names the page of the stream.
pub(crate) fn map_of(page: u64) -> u64
    ensures { result ≡ page / MAP_PAGE_ENTRIES }
{
    page / ENTRIES
}

/// Returns the block of the map whose first page is `page`; `map` is the map of the page before it.
fn begun_map(mark: &Mark, page: u64, map: &Page) -> u64
    ensures { result ≡ begun_map mark.now page map.now }
{
    if page == 0 {
        mark.first
    } else {
        map.word(ENTRIES as usize)
    }
}

/// Returns the block of the map of the page after `page`. The map of `page` is `map`, in block `at`.
pub(crate) fn map_behind(page: u64, map: &Page, at: u64) -> u64
    requires { page < 2 ^ 63 }
    ensures begins { (page + 1) % MAP_PAGE_ENTRIES ≡ 0 → result ≡ map_link map.now }
    ensures goes_on { ((page + 1) % MAP_PAGE_ENTRIES ≢ 0) → result ≡ at }
{
    if begins_map(page + 1) {
        map.word(ENTRIES as usize)
    } else {
        at
    }
}

/// Returns whether a map is read before the page of the stream.
fn begins_map(page: u64) -> bool
    ensures { IsTrue result ↔ (page % MAP_PAGE_ENTRIES ≡ 0) }
{
    page % ENTRIES == 0
}

/// Returns the next read for page `page` of the stream; `map` is the map of the page before it.
pub(crate) fn want(
    machine: &Machine,
    mark: &Mark,
    page: u64,
    map: &Page,
    stages: (Stage, Stage),
) -> Result<Move, Cause>
    ensures wants { (v : DiskImage) (rest : List Turn) → mark.now ≡ mark_in machine.now v →
        HasMapBefore machine.now v map.now page →
        Wants machine.now v map.now page stages rest (page_then machine.now v page rest) result }
    ensures reads { IfOk result (IsReadAt stages) }
{
    if !begins_map(page) {
        let block = page_named(machine, mark, page, map)?;
        return Ok(Move {
            stage: stages.1,
            call: Call::Read { block },
        });
    }
    let named = begun_map(mark, page, map);
    let block = map_named(machine, mark, map_of(page), named)?;
    Ok(Move {
        stage: stages.0,
        call: Call::Read { block },
    })
}

/// Returns the page of the stream after this one.
pub(crate) fn following(page: u64) -> u64
    ensures { page < 2 ^ 63 → result ≡ page + 1 }
{
    if page < u64::MAX { page + 1 } else { page }
}
