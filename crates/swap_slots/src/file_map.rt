ghost use Rattle.std.specs.Prelude.{◌≡◌, ℕ, ◌+◌, ◌-◌, ◌<◌, ◌≤◌, ◌↔◌, IsTrue, IsOk, IsNone, IfOk, IfSome, List, length};
ghost use Rattle.definitions.specs.Slots.{block_of, extent_at, slots_before, slots_of};
ghost use Rattle.definitions.specs.FileMaps.{LieApart, IsInOrder, IsFileMap};
ghost use Rattle.definitions.specs.FileMaps.{IsExtentFault};
ghost use Rattle.swap_slots.specs.Extents.{Follows};
ghost use Rattle.swap_slots.specs.KeptMap.{kept_extents, IsKeptMap, kept_as, kept_as-kept_extents};

use std::marker::Model;

/// The most extents that a file map may have.
const MOST_EXTENTS: usize = 64;

/// Where the slots of a swap area lie on the blocks of the device: extents (first slot, length, first block) in
/// ascending order (struct swap_extent, include/linux/swap.h). A contract sees the list of the extents.
#[derive(Clone, Copy)]
pub struct FileMap {
    extents: [(u32, u32, u32); MOST_EXTENTS],
    len: usize,
}

impl Model for FileMap {
    ghost Value = { List (ℕ × ℕ × ℕ) };

    ghost view = { kept_extents };

    ghost invariant = { IsKeptMap };

    ghost inverse = { kept_as };

    ghost inverse_ok = { kept_as-kept_extents };
}

impl FileMap {
    /// Makes the file map of these extents, if they are in order and cover exactly `slots` slots. Else returns the
    /// index of the first at fault: 0 for too few or too many, the one after the last if they don't cover the slots.
    pub fn of(extents: &[(u32, u32, u32)], slots: u32) -> Result<FileMap, u32>
        ensures ok { IsOk result ↔ IsFileMap extents.now slots }
        ensures map { IfOk result (λ map. map ≡ extents.now) }
        ensures refused { (at : ℕ) → (result ≡ Err at) ↔ IsExtentFault extents.now slots at }
    {
        if extents.is_empty() || extents.len() > MOST_EXTENTS {
            return Err(0);
        }
        let mut kept = [(0, 0, 0); MOST_EXTENTS];
        let mut end = 0;
        for (i, &extent) in extents.iter().enumerate() {
            if !is_in_order(extents, i, end) {
                return Err(i as u32);
            }
            end = u64::from(extent.0) + u64::from(extent.1);
            kept[i] = extent;
        }
        if end != u64::from(slots) {
            return Err(extents.len() as u32);
        }
        Ok(FileMap {
            extents: kept,
            len: extents.len(),
        })
    }

    /// Returns the extents, in the order of their slots.
    pub fn extents(&self) -> &[(u32, u32, u32)]
        ensures extents { result.now ≡ self.now }
        ensures map { IsFileMap self.now (slots_of self.now) }
    {
        &self.extents[..self.len]
    }

    /// Returns the block of a slot. Slots past the last extent continue it.
    pub fn block(&self, s: u32) -> u64
        ensures block { result ≡ block_of self.now s }
        ensures map { IsFileMap self.now (slots_of self.now) }
    {
        let (start, _, block) = last_from(&self.extents[..self.len], s);
        u64::from(block) + u64::from(s - start)
    }

    /// Returns the slot that lies on a block.
    pub fn slot_of(&self, block: u64) -> Option<u32>
        ensures slot { IfSome result (λ s. (s < slots_of self.now) × (block_of self.now s ≡ block)) }
        ensures none { IsNone result ↔ ((s : ℕ) → s < slots_of self.now → block_of self.now s ≡ block → ⊥) }
        ensures map { IsFileMap self.now (slots_of self.now) }
    {
        for &(start, length, first) in &self.extents[..self.len] {
            let first = u64::from(first);
            if first <= block && block - first < u64::from(length) {
                return Some(start + (block - first) as u32);
            }
        }
        None
    }
}

/// Returns whether extent `i` is in order, given that the extents before it end at slot `end`.
fn is_in_order(extents: &[(u32, u32, u32)], i: usize, end: u64) -> bool
    requires within { i < length extents.now }
    requires end { end ≡ slots_before extents.now i }
    ensures { IsTrue result ↔ IsInOrder extents.now i }
{
    let extent = extents[i];
    follows(extent, end) && lies_apart(&extents[..i], extent)
}

/// Returns whether an extent may follow the extents that end at slot `end`, apart from their blocks.
fn follows(extent: (u32, u32, u32), end: u64) -> bool
    ensures { IsTrue result ↔ Follows end extent }
{
    let (start, length, block) = extent;
    u64::from(start) == end
        && length >= 1
        && length <= u32::MAX - block
        && (block != 0 || start == 0)
}

/// Returns whether an extent shares no block with the extents before it.
fn lies_apart(before: &[(u32, u32, u32)], extent: (u32, u32, u32)) -> bool
    ensures { IsTrue result ↔ ((j : ℕ) → j < length before.now → LieApart (extent_at before.now j) extent) }
{
    before.iter().all(|&other| are_apart(other, extent))
}

fn are_apart(a: (u32, u32, u32), b: (u32, u32, u32)) -> bool
    ensures { IsTrue result ↔ LieApart a b }
{
    let end = |e: (u32, u32, u32)| u64::from(e.2) + u64::from(e.1);
    end(a) <= u64::from(b.2) || end(b) <= u64::from(a.2)
}

/// Returns the last extent that doesn't begin above slot `s`.
fn last_from(extents: &[(u32, u32, u32)], s: u32) -> (u32, u32, u32)
    requires { IsFileMap extents.now (slots_of extents.now) }
    ensures start { result.0 ≤ s }
    ensures block { block_of extents.now s ≡ result.2 + (s - result.0) }
{
    let after = extents.partition_point(|extent| extent.0 <= s);
    extents[after - 1]
}
