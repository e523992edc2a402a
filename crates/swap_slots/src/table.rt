ghost use Rattle.std.specs.Prelude.{◌≡◌, ℕ, ◌+◌, ◌*◌, ◌/◌, ◌%◌, ◌<◌, ◌≤◌, All, IfSome, IfNone, List, length, slice_get};
ghost use Rattle.definitions.specs.Bytes.{IsPage};
ghost use Rattle.definitions.specs.Tables.{entry_at, with_entry, with_entries};
ghost use Rattle.swap_slots.specs.Entries.{word_of, entry_of_word};

use crate::{FreeRuns, SlotEntry};
use definitions::ENTRIES_PER_FRAME;
use frame_arena::Frames;

/// The table of the slots of a swap area, in page frames: a word of 4 bytes for each slot's entry, which is 0 if the
/// slot is free, the number of the task that has it, 65536 if the image has it, and 131072 if it is bad.
#[derive(Clone, Copy, Debug, PartialEq, Eq)]
pub struct SlotTable {
    /// The first page frame.
    pub first: u32,
    /// The number of slots.
    pub slots: u32,
}

impl SlotTable {
    ghost use Rattle.swap_slots.specs.Table.{IsOwner, LiesIn, Matches, free_in, image_in};

    /// Gives the least free slot to `owner`: a task, or the image. Returns `None` if no slot is free.
    pub fn take(&self, frames: &mut Frames, runs: &mut FreeRuns, owner: SlotEntry) -> Option<u32>
        requires owner { IsOwner (word_of owner) }
        requires table { LiesIn frames.old self.now }
        requires matches { Matches frames.old self.now runs.old }
        ensures least { result ≡ slice_get (free_in frames.old self.now) 0 }
        ensures taken { IfSome result (λ slot. frames.new ≡ with_entry frames.old self.now.first slot (word_of owner)) }
        ensures none { IfNone result (frames.new ≡ frames.old) }
        ensures matches { Matches frames.new self.now runs.new }
        ensures len { length frames.new ≡ length frames.old }
        ensures room { runs.new.room ≡ runs.old.room }
    {
        let slot = runs.first()?;
        self.set(frames, slot, owner);
        runs.remove(slot);
        Some(slot)
    }

    /// Makes a slot free.
    pub fn give(&self, frames: &mut Frames, runs: &mut FreeRuns, slot: u32)
        requires slot { slot < self.now.slots }
        requires table { LiesIn frames.old self.now }
        requires matches { Matches frames.old self.now runs.old }
        ensures given { frames.new ≡ with_entry frames.old self.now.first slot 0 }
        ensures matches { Matches frames.new self.now runs.new }
        ensures len { length frames.new ≡ length frames.old }
        ensures room { runs.new.room ≡ runs.old.room }
    {
        self.set(frames, slot, SlotEntry::Free);
        runs.insert(slot);
    }

    /// Returns the entry of a slot.
    pub fn entry(&self, frames: &Frames, slot: u32) -> SlotEntry
        requires slot { slot < self.now.slots }
        requires table { LiesIn frames.now self.now }
        ensures entry { result ≡ entry_of_word (entry_at frames.now self.now.first slot) }
        ensures word { word_of result ≡ entry_at frames.now self.now.first slot }
    {
        let (p, at) = self.place(frames, slot);
        SlotEntry::of(frames.u32_at(p, at))
    }

    /// Sets the entry of a slot. The caller must update the free runs, or rebuild them.
    pub fn set(&self, frames: &mut Frames, slot: u32, entry: SlotEntry)
        requires slot { slot < self.now.slots }
        requires table { LiesIn frames.old self.now }
        ensures entry { frames.new ≡ with_entry frames.old self.now.first slot (word_of entry) }
        ensures len { length frames.new ≡ length frames.old }
        ensures pages { All IsPage frames.old }
    {
        let (p, at) = self.place(frames, slot);
        frames.put_u32(p, at, entry.word());
    }

    /// Returns how many slots are free. A slot of the image isn't free.
    pub fn free_count(&self, frames: &Frames, runs: &FreeRuns) -> u32
        requires table { LiesIn frames.now self.now }
        requires matches { Matches frames.now self.now runs.now }
        ensures { result ≡ length (free_in frames.now self.now) }
    {
        runs.count()
    }

    /// Makes every slot of the image free.
    pub fn give_image(&self, frames: &mut Frames, runs: &mut FreeRuns)
        requires table { LiesIn frames.old self.now }
        requires matches { Matches frames.old self.now runs.old }
        ensures given { frames.new ≡ with_entries frames.old self.now.first (image_in frames.old self.now) 0 }
        ensures matches { Matches frames.new self.now runs.new }
        ensures len { length frames.new ≡ length frames.old }
        ensures room { runs.new.room ≡ runs.old.room }
    {
        frames.are_pages();
        for slot in 0..self.slots {
            if let SlotEntry::Image = self.entry(frames, slot) {
                self.give(frames, runs, slot);
            }
        }
    }

    // Returns the page frame of a slot's entry, and the entry's offset there.
    fn place(&self, frames: &Frames, slot: u32) -> (u32, usize)
        requires slot { slot < self.now.slots }
        requires table { LiesIn frames.now self.now }
        ensures frame { result.0 ≡ self.now.first + slot / ENTRIES_PER_FRAME }
        ensures inside { result.0 < length frames.now }
        ensures offset { result.1 ≡ 4 * (slot % ENTRIES_PER_FRAME) }
        ensures pages { All IsPage frames.now }
    {
        frames.are_pages();
        (
            self.first + slot / ENTRIES_PER_FRAME,
            4 * (slot % ENTRIES_PER_FRAME) as usize,
        )
    }
}
