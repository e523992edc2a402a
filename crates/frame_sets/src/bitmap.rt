//! Sets of page frames, as blocks of bits (struct memory_bitmap, kernel/power/snapshot.c).

mod block;
mod iter;

ghost use Rattle.std.specs.Prelude.{◌≡◌, ℕ, ◌+◌, ◌-◌, ◌*◌, ◌/◌, ◌<◌, ◌≤◌, ◌↔◌, ◌++◌, [], IsTrue, IfOk, OnOk};
ghost use Rattle.std.specs.Prelude.{MatchOption, List, length, vec_len, slice_index, All};
ghost use Rattle.std.specs.List.{Contains};
ghost use Rattle.definitions.specs.Zones.{numbers, first_from, zone_at};
ghost use Rattle.definitions.specs.ZoneFacts.{IsZone, AreZones};
ghost use Rattle.definitions.specs.FrameSets.{inserted, removed, zone_blocks, blocks, HoldsBits};
ghost use Rattle.frame_sets.specs.FrameSet.{FrameSet, IsFrameSet};
ghost use Rattle.frame_sets.specs.Bits.{IsPlace, AreFilled};

use crate::zones::Zones;
use block::{
    WORDS, clear_bit, clear_blocks, empty_blocks, fill_first, first_bit, has_bit, set_bit,
};
pub use iter::Iter;
use page_core::NoMemory;
use std::alloc::Global;
use std::marker::Model;

/// The most page frames that a block has bits for (BM_BITS_PER_BLOCK).
const BITS: u32 = 32768;

/// A set of valid page frames. A contract sees the zones and the ascending list of the members.
#[derive(Drop)]
pub struct Bitmap {
    zones: Zones,
    /// The page frames of each block: the first one and their count.
    runs: Vec<(u32, u32)>,
    bits: Vec<[u64; WORDS]>,
    len: u32,
}

impl Model for Bitmap {
    ghost use Rattle.frame_sets.specs.FrameSet.{FrameSet};

    ghost Value = { FrameSet };

    ghost use Rattle.frame_sets.specs.KeptBitmap.{kept_set, IsKept};

    ghost view = { kept_set };

    ghost invariant = { IsKept };
}

impl Bitmap {
    /// Makes the empty set over these zones.
    pub fn create(alloc: Global, zones: &Zones) -> Result<Bitmap, NoMemory>
        ensures { IfOk result (λ b. b ≡ record { zones = zones.now; members = [] }) }
    {
        let runs = block_runs(alloc, zones)?;
        let bits = empty_blocks(alloc, runs.len())?;
        Ok(Bitmap {
            zones: *zones,
            runs,
            bits,
            len: 0,
        })
    }

    /// Adds a valid page frame to the set.
    pub fn set(&mut self, p: u32)
        requires { Contains (numbers self.old.zones) p }
        ensures { self.new ≡ record self.old { members = inserted self.old.members p } }
    {
        if let Some((b, k)) = place(&self.runs, p) {
            self.len += u32::from(set_bit(&mut self.bits[b], k));
        }
    }

    /// Removes a valid page frame from the set.
    pub fn clear(&mut self, p: u32)
        requires { Contains (numbers self.old.zones) p }
        ensures { self.new ≡ record self.old { members = removed self.old.members p } }
    {
        if let Some((b, k)) = place(&self.runs, p) {
            self.len -= u32::from(clear_bit(&mut self.bits[b], k));
        }
    }

    /// Returns whether the set has this page frame. A number that isn't valid is in no set.
    pub fn has(&self, p: u32) -> bool
        ensures { IsTrue result ↔ Contains self.now.members p }
    {
        match place(&self.runs, p) {
            Some((b, k)) => has_bit(&self.bits[b], k),
            None => false,
        }
    }

    /// Returns the least member at or above `p`.
    pub fn first_from(&self, p: u32) -> Option<u32>
        ensures { result ≡ first_from self.now.members p }
    {
        for b in 0..self.runs.len() {
            let (start, count) = self.runs[b];
            if p < start + count {
                if let Some(k) = first_bit(&self.bits[b], p.saturating_sub(start) as usize) {
                    return Some(start + k as u32);
                }
            }
        }
        None
    }

    /// Returns how many members the set has.
    pub fn len(&self) -> u32
        ensures len { result ≡ length self.now.members }
        ensures set { IsFrameSet self.now }
    {
        self.len
    }

    /// Tells the prover that the members ascend and are valid page frames, which it knows only of a set that is read.
    pub fn is_frame_set(&self)
        ensures set { IsFrameSet self.now }
    {
        let _len = self.len();
    }

    /// Removes every page frame from the set.
    pub fn clear_all(&mut self)
        ensures { self.new ≡ record self.old { members = [] } }
    {
        clear_blocks(&mut self.bits);
        self.len = 0;
    }

    /// Adds every valid page frame to the set.
    pub fn set_all(&mut self)
        ensures all { self.new ≡ record self.old { members = numbers self.old.zones } }
        ensures set { IsFrameSet self.new }
    {
        fill_blocks(&mut self.bits, &self.runs);
        self.len = self.zones.count();
    }

    /// Makes the set equal to another one.
    pub fn copy_from(&mut self, members: &Bitmap)
        requires { members.now.zones ≡ self.old.zones }
        ensures { self.new ≡ members.now }
    {
        self.bits.copy_from_slice(&members.bits);
        self.len = members.len;
    }

    /// Returns how many blocks of bits there are. The blocks of all zones are numbered in order from 0.
    pub fn blocks(&self) -> u32
        ensures { result ≡ length (blocks self.now.zones) }
    {
        self.runs.len() as u32
    }

    /// Returns the words of a block: bit k mod 64 of word k / 64 says whether the set has the block's page frame k.
    pub fn words(&self, block: u32) -> &[u64; WORDS]
        requires { block < length (blocks self.now.zones) }
        ensures { HoldsBits self.now.members (zone_at (blocks self.now.zones) block) result.now }
    {
        &self.bits[block as usize]
    }
}

/// Returns the page frames of each block: the first one and their count.
fn block_runs(alloc: Global, zones: &Zones) -> Result<Vec<(u32, u32)>, NoMemory>
    ensures { IfOk result (λ runs. (runs.items ≡ blocks zones.now) × AreZones zones.now) }
{
    let mut runs = Vec::new(alloc);
    for &zone in zones.as_slice() {
        add_blocks(&mut runs, zone)?;
    }
    Ok(runs)
}

/// Adds the blocks of a zone.
fn add_blocks(runs: &mut Vec<(u32, u32)>, zone: (u32, u32)) -> Result<(), NoMemory>
    requires { IsZone zone }
    ensures { OnOk result (runs.new.items ≡ runs.old.items ++ zone_blocks zone) }
{
    let (start, count) = zone;
    for j in 0..count.div_ceil(BITS) {
        let from = BITS * j;
        runs.push((start + from, BITS.min(count - from)))
            .map_err(|_| NoMemory)?;
    }
    Ok(())
}

/// Sets the bits of each block's page frames to 1, and the others to 0.
fn fill_blocks(bits: &mut [[u64; WORDS]], runs: &[(u32, u32)])
    requires blocks { length bits.old ≡ length runs.now }
    requires few { All (λ run. run.1 ≤ 32768) runs.now }
    ensures { AreFilled runs.now bits.new }
{
    for (b, &(_, count)) in runs.iter().enumerate() {
        fill_first(&mut bits[b], count as usize);
    }
}

/// Returns where the bit of a page frame is: its block, and the index in the block.
fn place(runs: &[(u32, u32)], p: u32) -> Option<(usize, usize)>
    ensures { MatchOption result (Contains (numbers runs.now) p → ⊥) (IsPlace runs.now p) }
{
    for (b, &(start, count)) in runs.iter().enumerate() {
        if start <= p && p - start < count {
            return Some((b, (p - start) as usize));
        }
    }
    None
}
