ghost use Rattle.std.specs.Prelude.{◌≡◌, ◌+◌, ◌-◌, ◌*◌, ◌/◌, ◌<◌, ◌≤◌, ◌^◌, ◌&&◌, IsTrue, ◌↔◌, true, take, drop};
ghost use Rattle.std.specs.Prelude.{length, None, IfNone, IfOk};
ghost use Rattle.compression.specs.Expansion.{expansion, told};
ghost use Rattle.expanded_disk.specs.Chains.{IsSameChain, StandsAt};
ghost use Rattle.expanded_disk.specs.Faults.{FillSays, StandsBefore, UnitSays};
ghost use Rattle.expanded_disk.specs.Units.{is_length, pages_with, size_of, stream_fault, units_of};

use crate::units::chain::{Chain, Read};
use crate::units::{Source, Unit, Walks};
use image_check::Finding;
use overlay_disk::Original;
use page_core::{NoMemory, Page};

/// The number of pages of a unit (LZO_UNC_PAGES).
const PAGES: u64 = 32;

/// The number of bytes of a page.
const PAGE: u64 = 4096;

/// The number of bytes of a unit's length (LZO_HEADER).
const HEADER: u64 = 8;

/// The most bytes that a unit's stream takes.
const MOST_LENGTH: u64 = 139_333;

/// Returns how many units an image with `pages` pages has.
pub fn units_of(pages: u64) -> u64
    requires { pages ≤ 2147483648 }
    ensures { result ≡ units_of pages }
{
    pages.saturating_sub(1).div_ceil(PAGES)
}

/// Returns how many bytes the pages of a unit have.
pub fn size_of(pages: u64, unit: u64) -> usize
    requires { unit < 2 ^ 32 }
    ensures size { result ≡ size_of pages unit }
    ensures most { result ≤ 131072 }
{
    let left = pages.saturating_sub(1).saturating_sub(PAGES * unit);
    (PAGE * PAGES.min(left)) as usize
}

/// Returns whether a unit's stream may have `len` bytes.
pub fn is_length(len: u64) -> bool
    ensures { result ≡ is_length len }
{
    0 < len && len <= MOST_LENGTH
}

/// Returns how many pages a unit takes whose stream has `len` bytes.
pub fn pages_with(len: u64) -> u64
    requires { len ≤ 139333 }
    ensures pages { result ≡ pages_with len }
    ensures some { 0 < result }
    ensures few { result ≤ 35 }
{
    (HEADER + len).div_ceil(PAGE)
}

/// Reads and expands the next unit of an image with `pages` pages, or returns what is wrong with it.
pub(crate) fn read_unit<B: Walks, K: Original>(
    chain: &mut Chain,
    source: &mut Source<B, K>,
    unit: &mut Unit,
    pages: u64,
    number: u64,
) -> Result<Option<Finding>, NoMemory>
    requires blocks { K.state.blocks ≡ chain.old.walker.limits.blocks }
    requires stands { StandsAt K.state.content chain.old }
    requires before { StandsBefore K.state.content number chain.old }
    requires few { number < 2 ^ 31 }
    ensures says { IfOk result (UnitSays K.state.content pages number K.state.faults (B.state source.new.below).faults
        chain.old chain.new unit.new.bytes.items) }
    ensures same { IsSameChain chain.old chain.new }
{
    let mut page = Page::zero();
    let place = match chain.next(source, pages, &mut page)? {
        Read::Wrong(finding) => return Ok(Some(finding)),
        Read::Page(place) => place,
    };
    let len = page.word(0);
    if !is_length(len) {
        return Ok(Some(Finding::UnitLength {
            unit: number as u32 + 1,
            place,
            length: len,
        }));
    }
    unit.put(0, &page);
    let behind = pages_with(len) - 1;
    match fill(chain, source, unit, pages, behind)? {
        Some(finding) => Ok(Some(finding)),
        None => Ok(expand(unit, number, len as usize, size_of(pages, number))),
    }
}

/// Reads `count` pages after the first page of a unit.
fn fill<B: Walks, K: Original>(
    chain: &mut Chain,
    source: &mut Source<B, K>,
    unit: &mut Unit,
    pages: u64,
    count: u64,
) -> Result<Option<Finding>, NoMemory>
    requires blocks { K.state.blocks ≡ chain.old.walker.limits.blocks }
    requires stands { StandsAt K.state.content chain.old }
    requires few { count < 35 }
    ensures says { IfOk result (FillSays K.state.content pages count K.state.faults (B.state source.new.below).faults
        chain.old chain.new unit.old.packed.items unit.new.packed.items) }
    ensures same { IsSameChain chain.old chain.new }
{
    let mut page = Page::zero();
    for i in 0..count {
        match chain.next(source, pages, &mut page)? {
            Read::Wrong(finding) => return Ok(Some(finding)),
            Read::Page(_) => unit.put(i as usize + 1, &page),
        }
    }
    Ok(None)
}

/// Expands a unit into `size` bytes, or returns what is wrong with its stream.
fn expand(unit: &mut Unit, number: u64, len: usize, size: usize) -> Option<Finding>
    requires len { len ≤ 139333 }
    requires size { size ≤ 131072 }
    requires few { number < 2 ^ 31 }
    ensures fault { let all = expansion size (take len (drop 8 unit.old.packed.items)) in
        result ≡ stream_fault (number + 1) size (length all.written) all.fault }
    ensures bytes { let all = expansion size (take len (drop 8 unit.old.packed.items)) in
        take (length all.written) unit.new.bytes.items ≡ all.written }
{
    let number = number as u32 + 1;
    match unit.expand(len, size) {
        Ok(written) if written == size => None,
        Ok(written) => Some(Finding::UnitSize {
            unit: number,
            bytes: written as u64,
            wanted: size as u64,
        }),
        Err(why) => Some(Finding::UnitStream { unit: number, why }),
    }
}
