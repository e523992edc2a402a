//! Where a compressed image lies in its area.
ghost use Rattle.std.specs.Prelude.{◌≡◌, ◌+◌, ◌-◌, ◌*◌, ◌^◌, ◌<◌, ◌≤◌, IfOk, IfSome, OnErr, OnOk, length, min};
ghost use Rattle.std.specs.Prelude.{◌++◌, slice_index};
ghost use Rattle.std.specs.Option.{ForSome};
ghost use Rattle.definitions.specs.Disk.{as_it_reads, block};
ghost use Rattle.plain_machine.specs.Chain.{map_block};
ghost use Rattle.expanded_disk.specs.Index.{IsIndexOf};
ghost use Rattle.expanded_disk.specs.Units.{units_of};
ghost use Rattle.expanded_show.specs.Blocks.{AreAreaFacts, AreBlockFacts, FailsToRead, chain_length, unit_facts};

use crate::gathered::{Gathered, push};
use definitions::MAP_PAGE_ENTRIES;
use expanded_disk::{Index, units_of};
use image_show::Fact;
use page_core::{Failed, NoMemory, Page};
use sector_disk::Disk;
use std::alloc::Global;

/// The number of entries of a map page (MAP_PAGE_ENTRIES).
const ENTRIES: u64 = MAP_PAGE_ENTRIES as u64;

/// The number of bytes of a page.
const PAGE: u64 = 4096;

/// Returns the runs of the blocks that a compressed image takes, and how many maps it has. The maps are read again.
fn block_facts<D: Disk>(alloc: Global, disk: &mut D, index: &Index) -> Result<Vec<Fact>, NoMemory>
    requires indexed { ForSome (D.content disk.old) (λ held.
        IsIndexOf (D.block_count disk.old) (as_it_reads held) index.now.first index.now.header index.now) }
    ensures facts { IfOk result (λ facts.
        AreBlockFacts (D.content disk.old) (D.faults disk.old) (D.faults disk.new) index.now facts.items) }
    ensures content { D.content disk.new ≡ D.content disk.old }
    ensures faults { D.faults disk.old ≤ D.faults disk.new }
    ensures orders { D.orders disk.new ≡ D.orders disk.old }
    ensures blocks { D.block_count disk.new ≡ D.block_count disk.old }
{
    let count = page_count(index);
    let maps = count.div_ceil(ENTRIES);
    let mut gathered = Gathered::new(alloc);
    let mut page = Page::zero();
    for number in 0..maps {
        let Ok(at) = read_map(disk, index, number, &mut page) else {
            return gathered.ended(number);
        };
        gathered.add_map(at, &page, entries_in(count, number))?;
    }
    gathered.ended(maps)
}

/// Returns the same, and then the number of units, the number of bytes of the pages that they take, and of those that
/// they expand to.
pub(crate) fn area_facts<D: Disk>(
    alloc: Global,
    disk: &mut D,
    index: &Index,
) -> Result<Vec<Fact>, NoMemory>
    requires indexed { ForSome (D.content disk.old) (λ held.
        IsIndexOf (D.block_count disk.old) (as_it_reads held) index.now.first index.now.header index.now) }
    ensures facts { IfOk result (λ facts.
        AreAreaFacts (D.content disk.old) (D.faults disk.old) (D.faults disk.new) index.now facts.items) }
    ensures content { D.content disk.new ≡ D.content disk.old }
    ensures faults { D.faults disk.old ≤ D.faults disk.new }
    ensures orders { D.orders disk.new ≡ D.orders disk.old }
    ensures blocks { D.block_count disk.new ≡ D.block_count disk.old }
{
    let mut facts = block_facts(alloc, disk, index)?;
    add_unit_facts(&mut facts, index)?;
    Ok(facts)
}

/// Adds what the units of an image take.
fn add_unit_facts(facts: &mut Vec<Fact>, index: &Index) -> Result<(), NoMemory>
    ensures { OnOk result (facts.new.items ≡ facts.old.items ++ unit_facts index.now) }
{
    let packed = page_count(index).saturating_sub(1);
    let expanded = index.pages.saturating_sub(1);
    push(facts, Fact::Units(units_of(index.pages)))?;
    push(facts, Fact::CompressedBytes(PAGE * packed))?;
    push(facts, Fact::ExpandedBytes(PAGE * expanded))
}

/// Returns how many pages the chain of an image has.
fn page_count(index: &Index) -> u64
    ensures few { result < 2 ^ 32 }
    ensures count { length index.now.starts.items ≡ units_of index.now.pages + 1 →
        result ≡ slice_index index.now.starts.items (units_of index.now.pages) }
    ensures last { result ≡ slice_index index.now.starts.items (units_of index.now.pages) }
{
    let last = units_of(index.pages) as usize;
    if last >= index.starts.len() {
        return 0;
    }
    u64::from(index.starts[last])
}

/// Returns how many entries map `number` has, in a chain of `count` pages.
fn entries_in(count: u64, number: u64) -> u64
    requires { MAP_PAGE_ENTRIES * number < count }
    ensures entries { result ≡ min MAP_PAGE_ENTRIES (count - MAP_PAGE_ENTRIES * number) }
    ensures few { result ≤ MAP_PAGE_ENTRIES }
{
    ENTRIES.min(count - ENTRIES * number)
}

/// Reads a map of the chain, and returns its block.
fn read_map<D: Disk>(
    disk: &mut D,
    index: &Index,
    number: u64,
    into: &mut Page,
) -> Result<u64, Failed>
    requires indexed { ForSome (D.content disk.old) (λ held.
        IsIndexOf (D.block_count disk.old) (as_it_reads held) index.now.first index.now.header index.now) }
    requires inside { ForSome (D.content disk.old)
        (λ held. MAP_PAGE_ENTRIES * number < chain_length (as_it_reads held) index.now) }
    ensures at { IfOk result (λ at. IfSome (D.content disk.old) (λ held.
        (at ≡ map_block (as_it_reads held) index.now.first number) × (into.new ≡ block (as_it_reads held) at))) }
    ensures cause { OnErr result (FailsToRead (D.content disk.old) (D.faults disk.old) (D.faults disk.new)) }
    ensures content { D.content disk.new ≡ D.content disk.old }
    ensures faults { D.faults disk.old ≤ D.faults disk.new }
    ensures orders { D.orders disk.new ≡ D.orders disk.old }
    ensures blocks { D.block_count disk.new ≡ D.block_count disk.old }
{
    let place = number as usize;
    if place >= index.maps.len() {
        return Err(Failed);
    }
    let at = index.maps[place];
    if at >= u64::from(disk.blocks()) {
        return Err(Failed);
    }
    disk.read(at as u32, into)?;
    Ok(at)
}
