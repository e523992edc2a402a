ghost use Rattle.std.specs.Prelude.{◌≡◌, ◌-◌, ◌/◌, ◌<◌, ◌==◌, ◌&&◌, ℕ, nat_lt, length, IsSome, IsTrue, IfSome};
ghost use Rattle.std.specs.Prelude.{All, set, is_ok, slice_get, slice_set};
ghost use Rattle.definitions.specs.Bytes.{IsPage};
ghost use Rattle.definitions.specs.Disk.{Writes, block};
ghost use Rattle.definitions.specs.Tables.{frame, with_entry};
ghost use Rattle.definitions.specs.Zones.{top};
ghost use Rattle.swap_slots.specs.Entries.{word_of};
ghost use Rattle.swap_slots.specs.Table.{Matches, free_in};
ghost use Rattle.plain_machine.specs.Faults.{TellsFailedCall};
ghost use Rattle.plain_machine.specs.Machine.{IsTask};
ghost use Rattle.plain_machine.specs.Machine.{block_of_slot, raw_slot_entry, IsHardware};
ghost use Rattle.plain_machine.specs.State.{goes_out, comes_in};
ghost use Rattle.plain_machine.specs.declared.event.TaskOp.TheVariants as op;
ghost use Rattle.plain_machine.specs.declared.reply.Reply.TheVariants as reply;
ghost use Rattle.plain_machine.specs.declared.reply.Left.TheVariants.{Same};
ghost use Rattle.machine.specs.Landing.{EndsOut, EndsIn};
ghost use Rattle.machine.specs.Running.{slot_table_of};
ghost use Rattle.sector_disk.specs.Called.{Called, OneCall};

use crate::tables::slot_table;
use crate::tasks::not_own;
use crate::{Flight, Hardware, Machine};
use frame_arena::Frames;
use page_core::{Failed, Page};
use plain_machine::{Held, Left, Reply};
use sector_disk::Disk;
use swap_slots::{FreeRuns, SlotEntry};

// Tasks' page frames go out to slots of the swap area and come in from there (swap_writepage and swap_readpage,
// mm/page_io.c).
impl Machine {
    ghost use Rattle.machine.specs.Flights.{flights_in};
    ghost use Rattle.machine.specs.Landing.{Answers, CallsDisk, Ends, HasEnd};
    ghost use Rattle.machine.specs.Running.{CanRun, slot_table_of};
    ghost use Rattle.machine.specs.TaskRow.{SimulatesRequest, IsRefusal};

    /// Ends a task's operation by its call of the disk; the operation is then no longer unfinished. An out writes its
    /// page frame to the slot; if that fails, the slot is given back. An in reads the slot into its page frame and
    /// gives the slot back; if that fails, both stay as they are.
    pub fn finish<D: Disk>(
        &mut self,
        frames: &mut Frames,
        runs: &mut FreeRuns,
        disk: &mut D,
        t: u32,
    ) -> Reply
        requires task { IsTask t }
        requires ready { CanRun self.old frames.old runs.old }
        requires flies { IsSome (flights_in self.old.flights t) }
        requires blocks { D.block_count disk.old ≡ self.old.blocks }
        ensures row { HasEnd self.old frames.old t self.new frames.new result (D.content disk.old) }
        ensures disk { CallsDisk self.old.hw frames.old (flights_in self.old.flights t) result (D.content disk.old)
            (D.content disk.new) }
        ensures answer { Answers (flights_in self.old.flights t) result }
        ensures ready { CanRun self.new frames.new runs.new }
        ensures machine { self.new ≡ record self.old { flights = slice_set self.old.flights (t - 1) Flight.Nothing } }
        ensures len { length frames.new ≡ length frames.old }
        ensures room { runs.new.room ≡ runs.old.room }
        ensures called { Called D.Disk OneCall (TellsFailedCall result) disk.old disk.new }
    {
        let reply = self.end_flight(frames, runs, disk, t);
        self.set_flight(t, Flight::Nothing);
        reply
    }

    /// Makes the call of the disk that ends a task's operation, and updates page frames and slots.
    fn end_flight<D: Disk>(
        &self,
        frames: &mut Frames,
        runs: &mut FreeRuns,
        disk: &mut D,
        t: u32,
    ) -> Reply
        requires ready { CanRun self.now frames.old runs.old }
        requires flies { IsSome (flights_in self.now.flights t) }
        requires blocks { D.block_count disk.old ≡ self.now.blocks }
        ensures ends { Ends self.now.hw (flights_in self.now.flights t) frames.old frames.new result
            (D.content disk.old) (D.content disk.new) }
        ensures pages { All IsPage frames.old }
        ensures hardware { IsHardware self.now.hw }
        ensures matches { Matches frames.new (slot_table_of self.now.hw) runs.new }
        ensures len { length frames.new ≡ length frames.old }
        ensures room { runs.new.room ≡ runs.old.room }
        ensures called { Called D.Disk OneCall (TellsFailedCall result) disk.old disk.new }
    {
        frames.are_pages();
        match self.flight(t) {
            Flight::Out { slot, p } => self.end_out(frames, runs, disk, slot, p),
            Flight::In { slot, p } => self.end_in(frames, runs, disk, slot, p),
            Flight::Nothing => unreachable!(),
        }
    }

    /// Writes a page frame's page to a slot's block. If that fails, gives the slot back.
    fn end_out<D: Disk>(
        &self,
        frames: &mut Frames,
        runs: &mut FreeRuns,
        disk: &mut D,
        slot: u32,
        p: u32,
    ) -> Reply
        requires ready { CanRun self.now frames.old runs.old }
        requires flies { (t : ℕ) × (flights_in self.now.flights t ≡ Some (goes_out slot p)) }
        requires blocks { D.block_count disk.old ≡ self.now.blocks }
        ensures ends { EndsOut self.now.hw (block_of_slot self.now.hw slot) frames.old frames.new slot p result
            (D.content disk.old) (D.content disk.new) }
        ensures hardware { IsHardware self.now.hw }
        ensures matches { Matches frames.new (slot_table_of self.now.hw) runs.new }
        ensures len { length frames.new ≡ length frames.old }
        ensures room { runs.new.room ≡ runs.old.room }
        ensures called { Called D.Disk OneCall (TellsFailedCall result) disk.old disk.new }
    {
        let table = slot_table(&self.hw);
        match disk.write(self.block(slot), frames.page(p)) {
            Ok(()) => Reply::Written { slot },
            Err(Failed) => {
                table.give(frames, runs, slot);
                Reply::WriteFault { left: Left::Same }
            }
        }
    }

    /// Reads a slot's block into a page frame, and gives the slot back. If the read fails, both stay as they are.
    fn end_in<D: Disk>(
        &self,
        frames: &mut Frames,
        runs: &mut FreeRuns,
        disk: &mut D,
        slot: u32,
        p: u32,
    ) -> Reply
        requires ready { CanRun self.now frames.old runs.old }
        requires flies { (t : ℕ) × (flights_in self.now.flights t ≡ Some (comes_in slot p)) }
        requires blocks { D.block_count disk.old ≡ self.now.blocks }
        ensures ends { EndsIn self.now.hw (block_of_slot self.now.hw slot) frames.old frames.new slot p result
            (D.content disk.old) }
        ensures hardware { IsHardware self.now.hw }
        ensures matches { Matches frames.new (slot_table_of self.now.hw) runs.new }
        ensures len { length frames.new ≡ length frames.old }
        ensures room { runs.new.room ≡ runs.old.room }
        ensures content { D.content disk.new ≡ D.content disk.old }
        ensures called { Called D.Disk OneCall (TellsFailedCall result) disk.old disk.new }
    {
        let slots = slot_table(&self.hw);
        let mut page = Page::zero();
        match disk.read(self.block(slot), &mut page) {
            Ok(()) => {
                slots.give(frames, runs, slot);
                frames.write_bytes(p, page.as_bytes());
                Reply::Fetched { slot }
            }
            Err(Failed) => Reply::ReadFault { left: Left::Same },
        }
    }

    /// Begins an out: the page frame's page is to go to the least free slot, which is the task's from now on.
    pub(crate) fn begin_out(
        &mut self,
        frames: &mut Frames,
        runs: &mut FreeRuns,
        t: u32,
        p: u32,
    ) -> Reply
        requires task { IsTask t }
        requires ready { CanRun self.old frames.old runs.old }
        requires idle { flights_in self.old.flights t ≡ None }
        ensures row { SimulatesRequest self.old frames.old t (op.Out p) self.new frames.new result }
        ensures ready { CanRun self.new frames.new runs.new }
        ensures no_fault { TellsFailedCall result → ⊥ }
        ensures machine { self.new ≡ record self.old { flights = self.new.flights } }
        ensures refused { IsRefusal result → (frames.new ≡ frames.old) × (self.new ≡ self.old) }
        ensures len { length frames.new ≡ length frames.old }
        ensures room { runs.new.room ≡ runs.old.room }
    {
        if let Some(refusal) = not_own(frames, &self.hw, t, p) {
            return refusal;
        }
        if self.held != Held::No {
            return Reply::Closed;
        }
        match self.take_slot(frames, runs, t) {
            Some(slot) => {
                self.set_flight(t, Flight::Out { slot, p });
                Reply::Slot { slot }
            }
            None => Reply::NoSlot,
        }
    }

    /// Begins an in: the page in one of the task's slots is to come into the page frame.
    pub(crate) fn begin_in(
        &mut self,
        frames: &Frames,
        runs: &FreeRuns,
        t: u32,
        slot: u32,
        p: u32,
    ) -> Reply
        requires task { IsTask t }
        requires ready { CanRun self.old frames.now runs.now }
        requires idle { flights_in self.old.flights t ≡ None }
        ensures row { SimulatesRequest self.old frames.now t (op.TakeIn slot p) self.new frames.now result }
        ensures ready { CanRun self.new frames.now runs.now }
        ensures no_fault { TellsFailedCall result → ⊥ }
        ensures machine { self.new ≡ record self.old { flights = self.new.flights } }
        ensures refused { IsRefusal result → self.new ≡ self.old }
    {
        if let Some(refusal) = not_own(frames, &self.hw, t, p) {
            return refusal;
        }
        if !self.owns_slot(frames, t, slot) {
            return Reply::NoSlotHere;
        }
        self.set_flight(t, Flight::In { slot, p });
        Reply::Reading { slot }
    }

    /// Gives the least free slot to a task. Returns None if the area can't be used or has no free slot.
    fn take_slot(&self, frames: &mut Frames, runs: &mut FreeRuns, t: u32) -> Option<u32>
        requires task { IsTask t }
        requires size { length frames.old ≡ top self.now.hw.zones }
        requires matches { Matches frames.old (slot_table_of self.now.hw) runs.old }
        ensures usable { IsSome result → IsTrue (is_ok self.now.area) }
        ensures least { IsTrue (is_ok self.now.area) →
            result ≡ slice_get (free_in frames.old (slot_table_of self.now.hw)) 0 }
        ensures taken { IfSome result (λ slot. frames.new ≡ with_entry frames.old self.now.hw.slot_table slot t) }
        ensures none { result ≡ None → frames.new ≡ frames.old }
        ensures matches { Matches frames.new (slot_table_of self.now.hw) runs.new }
        ensures len { length frames.new ≡ length frames.old }
        ensures room { runs.new.room ≡ runs.old.room }
        ensures pages { All IsPage frames.old }
        ensures hardware { IsHardware self.now.hw }
    {
        frames.are_pages();
        let table = slot_table(&self.hw);
        match self.area {
            Ok(_) => table.take(frames, runs, SlotEntry::Task(t)),
            Err(_) => None,
        }
    }

    /// Returns whether a slot is the task's. In an area that can't be used none is.
    fn owns_slot(&self, frames: &Frames, t: u32, slot: u32) -> bool
        requires task { IsTask t }
        requires size { length frames.now ≡ top self.now.hw.zones }
        ensures test { result ≡ (is_ok self.now.area && nat_lt slot self.now.hw.slots
            && (raw_slot_entry self.now.hw frames.now slot == t)) }
        ensures hardware { IsHardware self.now.hw }
    {
        let table = slot_table(&self.hw);
        match self.area {
            Ok(_) => slot < table.slots && is_tasks(table.entry(frames, slot), t),
            Err(_) => false,
        }
    }

    /// Returns the block of a slot.
    fn block(&self, slot: u32) -> u32
        requires { block_of_slot self.now.hw slot < self.now.blocks }
        ensures block { result ≡ block_of_slot self.now.hw slot }
        ensures hardware { IsHardware self.now.hw }
    {
        self.blocks_fit();
        self.hw.extents().block(slot) as u32
    }

    fn set_flight(&mut self, t: u32, flight: Flight)
        requires { IsTask t }
        ensures set { self.new ≡ record self.old { flights = slice_set self.old.flights (t - 1) flight } }
        ensures tasks { length self.old.flights ≡ 64 }
    {
        self.flights[t as usize - 1] = flight;
    }
}

/// Returns whether an entry says that a task has the slot.
fn is_tasks(entry: SlotEntry, t: u32) -> bool
    requires { IsTask t }
    ensures { result ≡ (word_of entry == t) }
{
    entry == SlotEntry::Task(t)
}
