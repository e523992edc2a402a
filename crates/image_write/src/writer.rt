ghost use Rattle.std.specs.Prelude.{◌≡◌, ◌⊎◌, ℕ, ◌+◌, ◌-◌, ◌*◌, ◌/◌, ◌%◌, ◌^◌, ◌<◌, ◌≤◌, List, ◌↔◌, false, true};
ghost use Rattle.std.specs.Prelude.{IsTrue, All, length, take, slice_index};
ghost use Rattle.definitions.specs.Bytes.{IsPage};
ghost use Rattle.definitions.specs.Slots.{block_of};
ghost use Rattle.image_write.specs.Answers.{after};
ghost use Rattle.image_write.specs.Steps.{HasSlots, KeepsSlots};
ghost use Rattle.image_write.specs.Writing.{writes_of, Writing};
ghost use Rattle.definitions.specs.NumberPages.{meta_of, marked_numbers};
ghost use Rattle.definitions.specs.Tables.{frame, with_entry, with_entries};
ghost use Rattle.plain_machine.specs.Image.{stream_pages};
ghost use Rattle.swap_slots.specs.Table.{free_in};
ghost use Rattle.image_write.specs.Sets.{origs_of, copies_of, zeros_of};
ghost use Rattle.plain_machine.specs.Image.{laid_block, is_map_write, page_of_write, page_place};
ghost use Rattle.sector_disk.specs.Called.{Called, OneCall};
ghost use Rattle.image_write.specs.Kept.{writing};

use crate::WriteStep;
use crate::copies::Cursor;
use crate::sets::Sets;
use crate::stream::head_page;
use definitions::{BLOCKS_PER_MAP, MAP_PAGE_ENTRIES, number_page_count};
use frame_arena::Frames;
use image_format::info::Info;
use image_format::{MapWriter, Pushed};
use page_core::{Failed, Page};
use plain_machine::image_writes;
use sector_disk::Disk;
use std::marker::Model;
use swap_slots::{FileMap, FreeRuns, SlotEntry, SlotTable};

/// A writer of an image to free slots (`struct swap_map_handle`, kernel/power/swap.c). It takes the first map's slot
/// when it begins, and one for each page. With a map's last entry it takes the next map's slot, and writes the full
/// map.
#[derive(Drop)]
pub struct Writer {
    info: Info,
    extents: FileMap,
    table: SlotTable,
    /// The block of the first map.
    first: u32,
    /// The number of writes made.
    written: u32,
    /// The map that is being filled, its block, and the block of the next one.
    map: MapWriter,
    block: u32,
    next: u32,
    cursor: Cursor,
}

impl Model for Writer {
    ghost Value = { Writing };

    ghost view = { writing };
}

impl Writer {
    ghost use Rattle.image_write.specs.Copies.{IsPassed};
    ghost use Rattle.image_write.specs.Steps.{TakesSlots, WritesPage, HasBegun, Advances, ReadsOn};
    ghost use Rattle.image_write.specs.Writing.{IsWriting, IsReady, BlocksBelow, IsSameImage, page_next, IsSameCursor};
    ghost use Rattle.image_write.specs.Writing.{AreOfImage, HasReadCopies, stream_of_sets};

    /// Begins an image by taking the slot of the first map.
    pub fn begin(
        frames: &mut Frames,
        runs: &mut FreeRuns,
        table: &SlotTable,
        map: &FileMap,
        info: &Info,
    ) -> Writer
        requires slots { HasSlots frames.old table.now runs.old }
        requires room { writes_of info.now ≤ length (free_in frames.old table.now) }
        requires blocks { BlocksBelow map.now (free_in frames.old table.now) (writes_of info.now) (2 ^ 32) }

        ensures begun { HasBegun info.now map.now table.now (free_in frames.old table.now) frames.new result }
        ensures reading { (origs copies zeros : List ℕ) → HasReadCopies origs copies zeros result }

        ensures taken { frames.new ≡ with_entries frames.old table.now.first
            (take 1 (free_in frames.old table.now)) 65536 }
        ensures kept { KeepsSlots table.now frames.old frames.new runs.old runs.new }
    {
        // Fewer than 2^32 slots are free.
        let _ = table.free_count(frames, runs);
        let block = take_block(frames, runs, table, map);
        Writer {
            info: *info,
            extents: *map,
            table: *table,
            first: block,
            written: 0,
            map: MapWriter::begin(),
            block,
            next: 0,
            cursor: Cursor::begin(),
        }
    }

    /// Returns the block of the first map.
    pub fn first(&self) -> u32
        ensures { result ≡ self.now.first }
    {
        self.first
    }

    /// Makes the next write: that of a page of the image, or of a map. The image's pages are the info page, the number
    /// pages of the originals, and the copies with data.
    pub fn step<D: Disk>(
        &mut self,
        frames: &mut Frames,
        runs: &mut FreeRuns,
        disk: &mut D,
        sets: &Sets,
    ) -> WriteStep
        requires slots { HasSlots frames.old self.old.table runs.old }
        requires writing { IsReady (D.block_count disk.old) frames.old self.old }
        requires sets { AreOfImage self.old.info (origs_of sets.now) (copies_of sets.now) (zeros_of sets.now) }
        requires copies { All (λ p. p < length frames.old) (copies_of sets.now) }
        requires reading { HasReadCopies (origs_of sets.now) (copies_of sets.now) (zeros_of sets.now) self.old }

        ensures answer { (result ≡ WriteStep.Fault)
            ⊎ (result ≡ after (self.old.written + 1) (writes_of self.old.info)) }
        ensures page { WritesPage (page_next (stream_of_sets self.old.info frames.old (origs_of sets.now)
            (copies_of sets.now) (zeros_of sets.now)) self.old) result frames.old self.old
            (D.content disk.old) (D.content disk.new) }
        ensures called { Called D.Disk OneCall (result ≡ WriteStep.Fault) disk.old disk.new }

        ensures writer { Advances (ReadsOn (origs_of sets.now) (copies_of sets.now) (zeros_of sets.now) result) result
            frames.old frames.new self.old self.new }
        ensures slots { TakesSlots self.old frames.old frames.new runs.old runs.new }
    {
        if self.is_at_map() {
            return self.write_map(disk);
        }
        if self.is_at_head(sets) {
            return self.write_head(frames, runs, disk, sets);
        }
        let copy = self.next_copy(frames, sets);
        self.write_copy(frames, runs, disk, copy)
    }

    /// Makes the next write as `step` does. If that writes a page of the image, the page is the given one.
    pub fn put<D: Disk>(
        &mut self,
        frames: &mut Frames,
        runs: &mut FreeRuns,
        disk: &mut D,
        page: &Page,
    ) -> WriteStep
        requires slots { HasSlots frames.old self.old.table runs.old }
        requires writing { IsReady (D.block_count disk.old) frames.old self.old }

        ensures answer { (result ≡ WriteStep.Fault)
            ⊎ (result ≡ after (self.old.written + 1) (writes_of self.old.info)) }
        ensures page { WritesPage page.now result frames.old self.old (D.content disk.old) (D.content disk.new) }
        ensures called { Called D.Disk OneCall (result ≡ WriteStep.Fault) disk.old disk.new }

        ensures writer { Advances IsSameCursor result frames.old frames.new self.old self.new }
        ensures slots { TakesSlots self.old frames.old frames.new runs.old runs.new }
    {
        if self.is_at_map() {
            return self.write_map(disk);
        }
        self.write_page(frames, runs, disk, page)
    }

    /// Writes the next info page or number page, as `write_page` does. It is a function of its own so that a step that
    /// writes a copy needs no room for a page made here.
    #[inline(never)]
    fn write_head<D: Disk>(
        &mut self,
        frames: &mut Frames,
        runs: &mut FreeRuns,
        disk: &mut D,
        sets: &Sets,
    ) -> WriteStep
        requires slots { HasSlots frames.old self.old.table runs.old }
        requires writing { IsReady (D.block_count disk.old) frames.old self.old }
        requires page { is_map_write self.old.info.pages self.old.written ≡ false }
        requires originals { length (origs_of sets.now) ≡ self.old.info.image_pages }
        requires head { page_of_write self.old.written ≤ meta_of self.old.info.image_pages }

        ensures answer { (result ≡ WriteStep.Fault)
            ⊎ (result ≡ after (self.old.written + 1) (writes_of self.old.info)) }
        ensures page { (saved : List (List ℕ)) → WritesPage (page_next (stream_pages self.old.info
            (marked_numbers (origs_of sets.now) (zeros_of sets.now)) saved) self.old) result frames.old self.old
            (D.content disk.old) (D.content disk.new) }
        ensures called { Called D.Disk OneCall (result ≡ WriteStep.Fault) disk.old disk.new }

        ensures writer { Advances IsSameCursor result frames.old frames.new self.old self.new }
        ensures slots { TakesSlots self.old frames.old frames.new runs.old runs.new }
    {
        let page = self.next_head(sets);
        self.write_page(frames, runs, disk, &page)
    }

    /// Writes a page of the image to the next free slot. With the map's last entry, takes the next map's slot.
    fn write_page<D: Disk>(
        &mut self,
        frames: &mut Frames,
        runs: &mut FreeRuns,
        disk: &mut D,
        page: &Page,
    ) -> WriteStep
        requires slots { HasSlots frames.old self.old.table runs.old }
        requires writing { IsReady (D.block_count disk.old) frames.old self.old }
        requires page { is_map_write self.old.info.pages self.old.written ≡ false }

        ensures answer { (result ≡ WriteStep.Fault)
            ⊎ (result ≡ after (self.old.written + 1) (writes_of self.old.info)) }
        ensures page { WritesPage page.now result frames.old self.old (D.content disk.old) (D.content disk.new) }
        ensures called { Called D.Disk OneCall (result ≡ WriteStep.Fault) disk.old disk.new }

        ensures writer { Advances IsSameCursor result frames.old frames.new self.old self.new }
        ensures slots { TakesSlots self.old frames.old frames.new runs.old runs.new }
    {
        let writes = writes(&self.info);
        let block = self.take_page(frames, runs);
        match disk.write(block, page) {
            Ok(()) => told(self.written, writes),
            Err(Failed) => WriteStep::Fault,
        }
    }

    /// Writes a copy frame to the next free slot, as `write_page` does a page. The copy frame is lent to the disk, so
    /// its slot is taken afterwards.
    fn write_copy<D: Disk>(
        &mut self,
        frames: &mut Frames,
        runs: &mut FreeRuns,
        disk: &mut D,
        copy: u32,
    ) -> WriteStep
        requires slots { HasSlots frames.old self.old.table runs.old }
        requires writing { IsReady (D.block_count disk.old) frames.old self.old }
        requires copy { copy < length frames.old }
        requires page { is_map_write self.old.info.pages self.old.written ≡ false }

        ensures answer { (result ≡ WriteStep.Fault)
            ⊎ (result ≡ after (self.old.written + 1) (writes_of self.old.info)) }
        ensures page { WritesPage (frame frames.old copy) result frames.old self.old (D.content disk.old)
            (D.content disk.new) }
        ensures called { Called D.Disk OneCall (result ≡ WriteStep.Fault) disk.old disk.new }

        ensures writer { Advances IsSameCursor result frames.old frames.new self.old self.new }
        ensures slots { TakesSlots self.old frames.old frames.new runs.old runs.new }
    {
        let of = writes(&self.info);
        let block = self.next_block(frames, runs);
        let answer = disk.write(block, frames.page(copy));
        self.take_page(frames, runs);
        match answer {
            Ok(()) => told(self.written, of),
            Err(Failed) => WriteStep::Fault,
        }
    }

    /// Returns the block of the least free slot, which is that of the next page of the image.
    fn next_block(&self, frames: &Frames, runs: &FreeRuns) -> u32
        requires slots { HasSlots frames.now self.now.table runs.now }
        requires writing { (free : List ℕ) × IsWriting free frames.now self.now }
        requires page { is_map_write self.now.info.pages self.now.written ≡ false }
        ensures block { (free : List ℕ) → IsWriting free frames.now self.now →
            result ≡ laid_block self.now.extents free (page_place (page_of_write self.now.written)) }
    {
        let slot = runs.first().unwrap();
        self.extents.block(slot) as u32
    }

    /// Takes the slot of the next page of the image, and with the last entry of the map also that of the next map.
    /// Returns the page's block.
    fn take_page(&mut self, frames: &mut Frames, runs: &mut FreeRuns) -> u32
        requires slots { HasSlots frames.old self.old.table runs.old }
        requires writing { (free : List ℕ) × IsWriting free frames.old self.old }
        requires page { is_map_write self.old.info.pages self.old.written ≡ false }

        ensures block { (free : List ℕ) → IsWriting free frames.old self.old →
            result ≡ laid_block self.old.extents free (page_place (page_of_write self.old.written)) }
        ensures written { self.new.written ≡ self.old.written + 1 }
        ensures image { IsSameImage self.old self.new }
        ensures writing { (free : List ℕ) → IsWriting free frames.old self.old → IsWriting free frames.new self.new }
        ensures cursor { IsSameCursor self.old self.new }
        ensures slots { TakesSlots self.old frames.old frames.new runs.old runs.new }
    {
        let block = take_block(frames, runs, &self.table, &self.extents);
        self.written += 1;
        if let Pushed::Room = self.map.push(u64::from(block)) {
            return block;
        }
        self.next = take_block(frames, runs, &self.table, &self.extents);
        self.map.link(u64::from(self.next));
        block
    }

    /// Writes the map that is being filled, and goes on with the next one.
    fn write_map<D: Disk>(&mut self, disk: &mut D) -> WriteStep
        requires writing { (memory : List (List ℕ)) × IsReady (D.block_count disk.old) memory self.old }
        requires map { is_map_write self.old.info.pages self.old.written ≡ true }

        ensures answer { (result ≡ WriteStep.Fault)
            ⊎ (result ≡ after (self.old.written + 1) (writes_of self.old.info)) }
        ensures page { (page : List ℕ) (memory : List (List ℕ)) →
            WritesPage page result memory self.old (D.content disk.old) (D.content disk.new) }

        ensures called { Called D.Disk OneCall (result ≡ WriteStep.Fault) disk.old disk.new }

        ensures writer { (memory : List (List ℕ)) → Advances IsSameCursor result memory memory self.old self.new }
    {
        let writes = writes(&self.info);
        match disk.write(self.block, self.map.page()) {
            Ok(()) => {
                self.written += 1;
                self.block = self.next;
                self.map = MapWriter::begin();
                told(self.written, writes)
            }
            Err(Failed) => WriteStep::Fault,
        }
    }

    /// Returns whether the next page of the image is the info page or a number page.
    fn is_at_head(&self, sets: &Sets) -> bool
        requires few { self.now.info.pages < 2 ^ 52 }
        requires originals { length (origs_of sets.now) ≡ self.now.info.image_pages }
        ensures { IsTrue result ↔ (page_of_write self.now.written ≤ meta_of self.now.info.image_pages) }
    {
        u64::from(self.written - self.written / BLOCKS_PER_MAP)
            <= number_page_count(sets.origs.len() as u64)
    }

    /// Returns the next info page or number page.
    fn next_head(&self, sets: &Sets) -> Page
        requires few { self.now.info.pages < 2 ^ 52 }
        requires originals { length (origs_of sets.now) ≡ self.now.info.image_pages }
        requires head { page_of_write self.now.written ≤ meta_of self.now.info.image_pages }
        ensures { (saved : List (List ℕ)) → result ≡ page_next
            (stream_pages self.now.info (marked_numbers (origs_of sets.now) (zeros_of sets.now)) saved) self.now }
    {
        head_page(
            &self.info,
            sets.origs,
            sets.zeros,
            self.written - self.written / BLOCKS_PER_MAP,
        )
    }

    /// Returns the page frame of the next copy.
    fn next_copy(&mut self, frames: &Frames, sets: &Sets) -> u32
        requires page { page_of_write self.old.written < self.old.info.pages }
        requires data { meta_of self.old.info.image_pages < page_of_write self.old.written }
        requires sets { AreOfImage self.old.info (origs_of sets.now) (copies_of sets.now) (zeros_of sets.now) }
        requires copies { All (λ p. p < length frames.now) (copies_of sets.now) }
        requires reading { HasReadCopies (origs_of sets.now) (copies_of sets.now) (zeros_of sets.now) self.old }
        ensures within { result < length frames.now }
        ensures page { frame frames.now result ≡ page_next (stream_of_sets self.old.info frames.now
            (origs_of sets.now) (copies_of sets.now) (zeros_of sets.now)) self.old }
        ensures same { self.new ≡ record self.old {
          orig = self.new.orig;
          copy = self.new.copy;
          passed = self.new.passed;
        } }
        ensures reading { IsPassed (origs_of sets.now) (copies_of sets.now) (zeros_of sets.now)
            self.new.orig self.new.copy self.new.passed
            (page_of_write self.old.written + 1 - (meta_of self.old.info.image_pages + 1)) }
    {
        self.cursor.next(sets.origs, sets.copies, sets.zeros)
    }

    /// Returns whether the next write is that of a map.
    fn is_at_map(&self) -> bool
        requires few { writes_of self.now.info < 2 ^ 32 }
        requires unfinished { self.now.written < writes_of self.now.info }
        ensures { result ≡ is_map_write self.now.info.pages self.now.written }
    {
        self.written % BLOCKS_PER_MAP == MAP_PAGE_ENTRIES || self.written + 1 == writes(&self.info)
    }
}

/// Returns how many writes an image takes.
fn writes(info: &Info) -> u32
    requires { writes_of info.now < 2 ^ 32 }
    ensures { result ≡ writes_of info.now }
{
    image_writes(info.pages as u32)
}

/// Gives the least free slot to the image, and returns its block.
fn take_block(frames: &mut Frames, runs: &mut FreeRuns, table: &SlotTable, map: &FileMap) -> u32
    requires slots { HasSlots frames.old table.now runs.old }
    requires some { 0 < length (free_in frames.old table.now) }
    requires fits { block_of map.now (slice_index (free_in frames.old table.now) 0) < 2 ^ 32 }
    ensures block { result ≡ block_of map.now (slice_index (free_in frames.old table.now) 0) }
    ensures taken { frames.new ≡ with_entry frames.old table.now.first
        (slice_index (free_in frames.old table.now) 0) 65536 }
    ensures pages { All IsPage frames.old }
    ensures kept { KeepsSlots table.now frames.old frames.new runs.old runs.new }
{
    frames.are_pages();
    let slot = table.take(frames, runs, SlotEntry::Image).unwrap();
    map.block(slot) as u32
}

/// Returns the answer after `k` of `of` writes.
fn told(k: u32, of: u32) -> WriteStep
    ensures { result ≡ after k of }
{
    if k == of {
        return WriteStep::Done;
    }
    WriteStep::More { k, of }
}
