ghost use Rattle.std.specs.Prelude.{◌≡◌, ◌≢◌, ℕ, ◌<◌, ◌≤◌, ◌↔◌, false, IsOk, IfOk, IfErr, IsTrue};
ghost use Rattle.definitions.specs.Slots.{block_of, slots_of};
ghost use Rattle.definitions.specs.FileMaps.{IsFileMap};
ghost use Rattle.plain_machine.specs.Chain.{is_fault_of};

use crate::cause::Cause;
use swap_slots::FileMap;

/// The slots of a swap area on the blocks of a disk.
#[derive(Clone, Copy)]
pub struct Area {
    pub map: FileMap,
    /// The last slot, by the header.
    pub last: u32,
    /// The number of blocks of the disk.
    pub blocks: u32,
}

impl Area {
    ghost use Rattle.image_read.specs.Slots.{HasSlotOn};

    /// Returns a block of the chain, unless it is at fault.
    pub fn checked(&self, block: u64) -> Result<u32, Cause>
        ensures ok { IsOk result ↔ (is_fault_of self.now.map self.now.blocks self.now.last block ≡ false) }
        ensures same { IfOk result (λ b. b ≡ block) }
        ensures below { IfOk result (λ b. b < self.now.blocks) }
        ensures fault { IfErr result (λ cause. cause ≡ Cause.BadBlock block) }
    {
        if block == self.map.block(0) || block >= u64::from(self.blocks) {
            return Err(Cause::BadBlock { block });
        }
        if !self.has_slot_on(block) {
            return Err(Cause::BadBlock { block });
        }
        Ok(block as u32)
    }

    /// Returns whether a slot from 1 to the last lies on this block, which isn't the header's.
    fn has_slot_on(&self, block: u64) -> bool
        requires { block ≢ block_of self.now.map 0 }
        ensures { IsTrue result ↔ HasSlotOn self.now.map self.now.last block }
    {
        self.is_below_end(block) || self.is_past_end(block)
    }

    /// Returns whether a slot that the extents cover, up to the last, lies on this block.
    fn is_below_end(&self, block: u64) -> bool
        ensures below { IsTrue result ↔ ((s : ℕ) × (s < slots_of self.now.map) × (s ≤ self.now.last)
            × (block_of self.now.map s ≡ block)) }
        ensures map { IsFileMap self.now.map (slots_of self.now.map) }
    {
        match self.map.slot_of(block) {
            Some(s) => s <= self.last,
            None => false,
        }
    }

    /// Returns whether this block is as far below the last slot's block as some slot that lies on it is below the last
    /// slot. This finds the slots past the extents, which continue the last extent.
    fn is_past_end(&self, block: u64) -> bool
        ensures sound { IsTrue result → HasSlotOn self.now.map self.now.last block }
        ensures past { (s : ℕ) → slots_of self.now.map ≤ s → 1 ≤ s → s ≤ self.now.last →
            block_of self.now.map s ≡ block → IsTrue result }
    {
        let end = self.map.block(self.last);
        if block > end {
            return false;
        }
        let back = end - block;
        if back >= u64::from(self.last) {
            return false;
        }
        self.map.block(self.last - back as u32) == block
    }
}
