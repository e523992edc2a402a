//! The pages of a compressed image, read again through its index.
ghost use Rattle.std.specs.Prelude.{◌≡◌, ◌+◌, ◌*◌, ◌<◌, ◌≤◌, ◌^◌, ◌++◌, true, IfSome, OnOk, OnErr, Some, drop, take};
ghost use Rattle.definitions.specs.Disk.{as_it_reads, block};
ghost use Rattle.expanded_disk.specs.Index.{IsIndexOf};
ghost use Rattle.expanded_disk.specs.Names.{chain_of};
ghost use Rattle.expanded_disk.specs.Units.{bytes_from, bytes_of, size_of, start_of, units_of};
ghost use Rattle.compression.specs.Expansion.{expansion};
ghost use Rattle.expanded_disk.specs.Keeps.{FailsBelow, IsJust, IsKept};
ghost use Rattle.expanded_disk.specs.Laid.{expanded_page};
ghost use Rattle.std.specs.Option.{ForSome};

use crate::kept::Kept;
use crate::units::{Index, Source, Unit, Walks, is_length, pages_with, size_of};
use definitions::MAP_PAGE_ENTRIES;
use overlay_disk::Original;
use page_core::{Failed, Page};

/// How many entries a map page has (MAP_PAGE_ENTRIES).
const ENTRIES: u64 = MAP_PAGE_ENTRIES as u64;

/// The number of pages of a unit (LZO_UNC_PAGES).
const PAGES: u64 = 32;

/// Reads page k of the expanded image. It fails if the disk below fails, or no longer holds what it held. After a
/// failure the contents of `into` are arbitrary.
pub(crate) fn read_page<B: Walks, K: Original>(
    source: &mut Source<B, K>,
    index: &Index,
    kept: &mut Kept,
    k: u64,
    into: &mut Page,
) -> Result<(), Failed>
    requires inside { k < index.now.pages }
    requires indexed { ForSome K.state.content (λ held.
        IsIndexOf K.state.blocks (as_it_reads held) index.now.first index.now.header index.now) }
    requires kept { IsKept K.state.content index.now.first index.now.pages kept.old.number kept.old.unit.bytes.items }
    ensures page { OnOk result (IfSome K.state.content (λ held.
        into.new ≡ expanded_page (chain_of (as_it_reads held) index.now.first) index.now.pages k)) }
    ensures kept { IsKept K.state.content index.now.first index.now.pages kept.new.number kept.new.unit.bytes.items }
    ensures cause { OnErr result
        (FailsBelow K.state.content K.state.faults (B.state source.new.below).faults) }
    ensures faults { (B.state source.old.below).faults ≤ (B.state source.new.below).faults }
{
    if k == 0 {
        *into = Page::from_bytes(index.info.as_bytes());
        return Ok(());
    }
    keep(source, index, kept, (k - 1) / PAGES)?;
    kept.unit.page(((k - 1) % PAGES) as usize, into);
    Ok(())
}

/// Loads and keeps a unit, unless it is the one that is kept.
fn keep<B: Walks, K: Original>(
    source: &mut Source<B, K>,
    index: &Index,
    kept: &mut Kept,
    number: u64,
) -> Result<(), Failed>
    requires inside { number < units_of index.now.pages }
    requires indexed { ForSome K.state.content (λ held.
        IsIndexOf K.state.blocks (as_it_reads held) index.now.first index.now.header index.now) }
    requires kept { IsKept K.state.content index.now.first index.now.pages kept.old.number kept.old.unit.bytes.items }
    ensures bytes { OnOk result (IfSome K.state.content (λ held.
        take (size_of index.now.pages number) kept.new.unit.bytes.items
        ≡ bytes_of (chain_of (as_it_reads held) index.now.first) index.now.pages number)) }
    ensures kept { IsKept K.state.content index.now.first index.now.pages kept.new.number kept.new.unit.bytes.items }
    ensures cause { OnErr result
        (FailsBelow K.state.content K.state.faults (B.state source.new.below).faults) }
    ensures faults { (B.state source.old.below).faults ≤ (B.state source.new.below).faults }
{
    if is_number(kept.number, number) {
        return Ok(());
    }
    kept.number = None;
    load(source, index, &mut kept.unit, number)?;
    kept.number = Some(number);
    Ok(())
}

/// Returns whether a unit is kept, and has this number.
fn is_number(kept: Option<u64>, number: u64) -> bool
    ensures { result ≡ true → kept ≡ Some number }
{
    match kept {
        Some(kept) => kept == number,
        None => false,
    }
}

/// Reads a unit, and expands it.
fn load<B: Walks, K: Original>(
    source: &mut Source<B, K>,
    index: &Index,
    unit: &mut Unit,
    number: u64,
) -> Result<(), Failed>
    requires inside { number < units_of index.now.pages }
    requires indexed { ForSome K.state.content (λ held.
        IsIndexOf K.state.blocks (as_it_reads held) index.now.first index.now.header index.now) }
    ensures bytes { OnOk result (IfSome K.state.content (λ held.
        take (size_of index.now.pages number) unit.new.bytes.items
        ≡ bytes_of (chain_of (as_it_reads held) index.now.first) index.now.pages number)) }
    ensures cause { OnErr result
        (FailsBelow K.state.content K.state.faults (B.state source.new.below).faults) }
    ensures faults { (B.state source.old.below).faults ≤ (B.state source.new.below).faults }
{
    let at = number as usize;
    if at >= index.starts.len() {
        return Err(Failed);
    }
    let start = u64::from(index.starts[at]);
    let mut page = Page::zero();
    read_entry(source, index, start, &mut page)?;
    load_behind(source, index, unit, number, start, &page)
}

/// Reads the pages of a unit after its first one, and expands it.
fn load_behind<B: Walks, K: Original>(
    source: &mut Source<B, K>,
    index: &Index,
    unit: &mut Unit,
    number: u64,
    start: u64,
    page: &Page,
) -> Result<(), Failed>
    requires inside { number < units_of index.now.pages }
    requires place { start < 2 ^ 32 }
    requires indexed { ForSome K.state.content (λ held.
        IsIndexOf K.state.blocks (as_it_reads held) index.now.first index.now.header index.now) }
    requires start { ForSome K.state.content (λ held.
        start ≡ start_of (chain_of (as_it_reads held) index.now.first) number) }
    requires first { ForSome K.state.content (λ held. page.now ≡ chain_of (as_it_reads held) index.now.first start) }
    ensures bytes { OnOk result (IfSome K.state.content (λ held.
        take (size_of index.now.pages number) unit.new.bytes.items
        ≡ bytes_of (chain_of (as_it_reads held) index.now.first) index.now.pages number)) }
    ensures cause { OnErr result
        (FailsBelow K.state.content K.state.faults (B.state source.new.below).faults) }
    ensures faults { (B.state source.old.below).faults ≤ (B.state source.new.below).faults }
{
    let len = page.word(0);
    if !is_length(len) {
        return Err(Failed);
    }
    unit.put(0, page);
    fill(source, index, unit, start + 1, pages_with(len) - 1)?;
    expand(unit, len as usize, size_of(index.pages, number))
}

/// Expands a unit to exactly `size` bytes.
fn expand(unit: &mut Unit, len: usize, size: usize) -> Result<(), Failed>
    requires len { len ≤ 139333 }
    requires size { size ≤ 131072 }
    ensures bytes { OnOk result (take size unit.new.bytes.items
        ≡ (expansion size (take len (drop 8 unit.old.packed.items))).written) }
    ensures cause { OnErr result (IsJust size (expansion size (take len (drop 8 unit.old.packed.items))) → ⊥) }
{
    match unit.expand(len, size) {
        Err(_) => Err(Failed),
        Ok(written) => { if written == size { Ok(()) } else { Err(Failed) } }
    }
}

/// Reads `count` pages after the first page of a unit.
fn fill<B: Walks, K: Original>(
    source: &mut Source<B, K>,
    index: &Index,
    unit: &mut Unit,
    from: u64,
    count: u64,
) -> Result<(), Failed>
    requires few { count < 35 }
    requires place { from < 2 ^ 33 }
    requires indexed { ForSome K.state.content (λ held.
        IsIndexOf K.state.blocks (as_it_reads held) index.now.first index.now.header index.now) }
    requires inside { ForSome K.state.content (λ held.
        from + count ≤ start_of (chain_of (as_it_reads held) index.now.first) (units_of index.now.pages)) }
    ensures filled { OnOk result (IfSome K.state.content (λ held. take (4096 * (count + 1)) unit.new.packed.items
        ≡ take 4096 unit.old.packed.items ++ bytes_from (chain_of (as_it_reads held) index.now.first) from count)) }
    ensures cause { OnErr result
        (FailsBelow K.state.content K.state.faults (B.state source.new.below).faults) }
    ensures faults { (B.state source.old.below).faults ≤ (B.state source.new.below).faults }
{
    let mut page = Page::zero();
    for i in 0..count {
        read_entry(source, index, from + i, &mut page)?;
        unit.put(i as usize + 1, &page);
    }
    Ok(())
}

/// Reads page k of the chain.
fn read_entry<B: Walks, K: Original>(
    source: &mut Source<B, K>,
    index: &Index,
    k: u64,
    into: &mut Page,
) -> Result<(), Failed>
    requires indexed { ForSome K.state.content (λ held.
        IsIndexOf K.state.blocks (as_it_reads held) index.now.first index.now.header index.now) }
    requires inside { ForSome K.state.content (λ held.
        k < start_of (chain_of (as_it_reads held) index.now.first) (units_of index.now.pages)) }
    ensures page { OnOk result (IfSome K.state.content (λ held.
        into.new ≡ chain_of (as_it_reads held) index.now.first k)) }
    ensures cause { OnErr result
        (FailsBelow K.state.content K.state.faults (B.state source.new.below).faults) }
    ensures faults { (B.state source.old.below).faults ≤ (B.state source.new.below).faults }
{
    let at = (k / ENTRIES) as usize;
    if at >= index.maps.len() {
        return Err(Failed);
    }
    read_at(source, index.maps[at], into)?;
    let block = into.word((k % ENTRIES) as usize);
    read_at(source, block, into)
}

/// Reads a block, if the disk has it.
fn read_at<B: Walks, K: Original>(
    source: &mut Source<B, K>,
    b: u64,
    into: &mut Page,
) -> Result<(), Failed>
    requires { ForSome K.state.content (λ held. b < K.state.blocks) }
    ensures page { OnOk result (IfSome K.state.content (λ held. into.new ≡ block (as_it_reads held) b)) }
    ensures cause { OnErr result
        (FailsBelow K.state.content K.state.faults (B.state source.new.below).faults) }
    ensures faults { (B.state source.old.below).faults ≤ (B.state source.new.below).faults }
{
    if b >= u64::from(source.blocks()) {
        return Err(Failed);
    }
    source.read(b as u32, into)
}
