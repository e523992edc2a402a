ghost use Rattle.std.specs.Prelude.{◌≡◌, ℕ, ◌+◌, ◌<◌, ◌↔◌, not, nat_lt, length, IsTrue, MatchResult, Some, None};
ghost use Rattle.std.specs.List.{list_any, range_with_len};
ghost use Rattle.plain_machine.specs.Machine.{block_of_slot};
ghost use Rattle.plain_machine.specs.UsableArea.{kind_or_fit_fault, fit_fault};
ghost use Rattle.definitions.specs.Slots.{extent_at};
ghost use Rattle.machine.specs.Usable.{HasKind, Passes};

use crate::Hardware;
use image_format::{Area, AreaKind};
use plain_machine::NoSwap;

/// Returns the area of a header block, if the machine can use it on a disk of `blocks` blocks: it is a version 1 area,
/// each of its slots lies on a block of the disk, and it has the machine's number of slots.
pub fn usable(hw: &Hardware, blocks: u32, kind: &AreaKind) -> Result<Area, NoSwap>
    ensures { MatchResult result
        (λ area. HasKind kind.now area × (kind_or_fit_fault hw.now blocks kind.now ≡ None))
        (λ why. kind_or_fit_fault hw.now blocks kind.now ≡ Some why) }
{
    match kind {
        AreaKind::Image(_) => Err(NoSwap::Image),
        AreaKind::Old => Err(NoSwap::Old),
        AreaKind::Other { sig } => Err(NoSwap::Signature { sig: *sig }),
        AreaKind::BadArea { why } => Err(NoSwap::from(*why)),
        AreaKind::Swap(area) => fitting(hw, blocks, area),
    }
}

fn fitting(hw: &Hardware, blocks: u32, area: &Area) -> Result<Area, NoSwap>
    ensures { MatchResult result
        (λ a. (a ≡ area.now) × (fit_fault hw.now blocks area.now ≡ None))
        (λ why. fit_fault hw.now blocks area.now ≡ Some why) }
{
    if lies_beyond(hw, area.last, blocks) {
        return Err(NoSwap::Short {
            last: area.last,
            blocks,
        });
    }
    if u64::from(area.last) + 1 != u64::from(hw.slots()) {
        return Err(NoSwap::Misfit {
            last: area.last,
            slots: hw.slots(),
        });
    }
    Ok(*area)
}

/// Returns whether a slot up to `last` lies on no block of the disk. Slots past the last extent continue it.
fn lies_beyond(hw: &Hardware, last: u32, blocks: u32) -> bool
    ensures { result ≡ list_any (λ s. not (nat_lt (block_of_slot hw.now s) blocks)) (range_with_len 0 (last + 1)) }
{
    let map = hw.extents();
    map.block(last) >= u64::from(blocks) || some_passes(map.extents(), last, blocks)
}

/// Returns whether one of these extents has a slot up to `last` that lies on no block of the disk.
fn some_passes(extents: &[(u32, u32, u32)], last: u32, blocks: u32) -> bool
    ensures { IsTrue result ↔ ((i : ℕ) × (i < length extents.now) × Passes (extent_at extents.now i) last blocks) }
{
    extents.iter().any(|&extent| passes(extent, last, blocks))
}

/// Returns whether an extent has a slot up to `last` that lies on no block of the disk.
fn passes(extent: (u32, u32, u32), last: u32, blocks: u32) -> bool
    ensures { IsTrue result ↔ Passes extent last blocks }
{
    let (start, length, block) = extent;
    let fitting = blocks.saturating_sub(block);
    fitting < length && u64::from(start) + u64::from(fitting) <= u64::from(last)
}
