ghost use Rattle.std.specs.Prelude.{◌≡◌, ℕ, ◌+◌, ◌<◌, ◌≤◌, ◌↔◌, [], List, IsTrue, IfOk, MatchOption, Contains, length};
ghost use Rattle.std.specs.Prelude.{replicate, slice_get};
ghost use Rattle.definitions.specs.Zones.{numbers};
ghost use Rattle.definitions.specs.FreeRuns.{runs_of, free_runs};
ghost use Rattle.definitions.specs.Tables.{HasTable};
ghost use Rattle.definitions.specs.FrameSets.{inserted, removed};
ghost use Rattle.swap_slots.specs.Runs.{SlotRuns, from_slot, IsFirstRun};
ghost use Rattle.swap_slots.specs.Kept.{kept_runs, IsKept};

use crate::words::{clear_bit, first_bit, has_bit, is_clear_word, set_bit};
use crate::{SlotEntry, SlotTable};
use frame_arena::Frames;
use page_core::NoMemory;
use std::alloc::Global;
use std::marker::Model;

/// The free slots of a machine, as runs. It takes all its memory when it is created.
#[derive(Drop)]
pub struct FreeRuns {
    room: u32,
    count: u32,
    /// A bit for each slot, 1 if the slot is free.
    bits: Vec<u64>,
    /// A bit for each word of `bits`, 1 if the word isn't 0.
    summary: Vec<u64>,
}

impl Model for FreeRuns {
    ghost Value = { SlotRuns };

    ghost view = { kept_runs };

    ghost invariant = { IsKept };
}

impl FreeRuns {
    /// Makes runs without a free slot, with room for the free slots of a table of `slots` slots.
    pub fn create(alloc: Global, slots: u32) -> Result<FreeRuns, NoMemory>
        ensures { IfOk result (λ runs. runs ≡ record { room = slots; runs = [] }) }
    {
        let words = slots.div_ceil(64);
        Ok(FreeRuns {
            room: slots,
            count: 0,
            bits: zeros(alloc, words)?,
            summary: zeros(alloc, words.div_ceil(64))?,
        })
    }

    /// Rebuilds the runs from the free slots of a table.
    pub fn rebuild(&mut self, frames: &Frames, table: &SlotTable)
        requires room { table.now.slots ≤ self.old.room }
        requires table { HasTable frames.now table.now.first table.now.slots }
        ensures { self.new ≡ record self.old { runs = free_runs table.now.slots table.now.first frames.now } }
    {
        self.clear();
        for slot in 0..table.slots {
            if let SlotEntry::Free = table.entry(frames, slot) {
                self.insert(slot);
            }
        }
    }

    /// Returns how many slots are free.
    pub(crate) fn count(&self) -> u32
        ensures { result ≡ length (numbers self.now.runs) }
    {
        self.count
    }

    /// Returns the least free slot.
    pub fn first(&self) -> Option<u32>
        ensures { result ≡ slice_get (numbers self.now.runs) 0 }
    {
        let word = first_bit(&self.summary, 0)?;
        let slot = first_bit(&self.bits, word)?;
        Some(slot as u32)
    }

    /// Makes a slot free.
    pub(crate) fn insert(&mut self, slot: u32)
        requires { slot < self.old.room }
        ensures { self.new ≡ record self.old { runs = runs_of (inserted (numbers self.old.runs) slot) } }
    {
        let s = slot as usize;
        self.count += u32::from(set_bit(&mut self.bits, s));
        set_bit(&mut self.summary, s / 64);
    }

    /// Makes a slot no longer free.
    pub(crate) fn remove(&mut self, slot: u32)
        requires { slot < self.old.room }
        ensures { self.new ≡ record self.old { runs = runs_of (removed (numbers self.old.runs) slot) } }
    {
        let s = slot as usize;
        self.count -= u32::from(clear_bit(&mut self.bits, s));
        if is_clear_word(&self.bits, s / 64) {
            clear_bit(&mut self.summary, s / 64);
        }
    }

    /// Makes every slot no longer free.
    pub(crate) fn clear(&mut self)
        ensures { self.new ≡ record self.old { runs = [] } }
    {
        self.bits.fill(0);
        self.summary.fill(0);
        self.count = 0;
    }

    /// Returns run `j` of free slots, from 0: its first slot and its length.
    pub fn run(&self, j: u32) -> Option<(u32, u32)>
        ensures { result ≡ slice_get self.now.runs j }
    {
        let _ = &self.room;
        let mut run = self.run_from(0)?;
        for _ in 0..j {
            run = self.run_from(run.0 + run.1)?;
        }
        Some(run)
    }

    /// Returns the first run of free slots from `from` on.
    fn run_from(&self, from: u32) -> Option<(u32, u32)>
        requires { from ≤ self.now.room }
        ensures { let slots = numbers self.now.runs in MatchOption result (from_slot from slots ≡ [])
            (IsFirstRun slots from self.now.room) }
    {
        let start = self.next_free(from);
        if start == self.room {
            return None;
        }
        Some((start, self.next_taken(start) - start))
    }

    /// Returns the first free slot from `from` on, or the number of slots.
    fn next_free(&self, from: u32) -> u32
        requires { from ≤ self.now.room }
        ensures within { (from ≤ result) × (result ≤ self.now.room) }
        ensures before { (s : ℕ) → from ≤ s → s < result → Contains (numbers self.now.runs) s → ⊥ }
        ensures here { result < self.now.room → Contains (numbers self.now.runs) result }
    {
        for slot in from..self.room {
            if self.has(slot) {
                return slot;
            }
        }
        self.room
    }

    /// Returns the first slot from `from` on that isn't free, or the number of slots.
    fn next_taken(&self, from: u32) -> u32
        requires { from ≤ self.now.room }
        ensures within { (from ≤ result) × (result ≤ self.now.room) }
        ensures before { (s : ℕ) → from ≤ s → s < result → Contains (numbers self.now.runs) s }
        ensures here { Contains (numbers self.now.runs) result → ⊥ }
    {
        for slot in from..self.room {
            if !self.has(slot) {
                return slot;
            }
        }
        self.room
    }

    /// Returns whether a slot is free.
    fn has(&self, slot: u32) -> bool
        requires { slot < self.now.room }
        ensures { IsTrue result ↔ Contains (numbers self.now.runs) slot }
    {
        has_bit(&self.bits, slot as usize)
    }
}

fn zeros(alloc: Global, words: u32) -> Result<Vec<u64>, NoMemory>
    ensures { IfOk result (λ v. v.items ≡ replicate words 0) }
{
    match Vec::from_elem(alloc, 0, words as usize) {
        Ok(zeros) => Ok(zeros),
        Err(_) => Err(NoMemory),
    }
}
