ghost use Rattle.std.specs.Prelude.{◌≡◌, ℕ, ◌+◌, ◌*◌, ◌/◌, ◌<◌, ◌↔◌, not, true, length, All, IsTrue, IsOk, IfErr};
ghost use Rattle.std.specs.Prelude.{MatchResult, Some, None, Contains};
ghost use Rattle.std.specs.List.{find};
ghost use Rattle.definitions.specs.Bytes.{IsPage};
ghost use Rattle.definitions.specs.Tables.{entry_of, page_flags, owner_of, is_saveable};
ghost use Rattle.definitions.specs.Zones.{numbers, top};
ghost use Rattle.frame_table.specs.Flags.{bits_of};
ghost use Rattle.plain_machine.specs.Loader.{has};
ghost use Rattle.plain_machine.specs.Machine.{Fits, IsHardware, IsTableFrame, bad_slot, frame_entry};
ghost use Rattle.plain_machine.specs.Machine.{frame_table_frames, is_slot_entry, is_table_at_fault, is_well_formed};
ghost use Rattle.plain_machine.specs.Machine.{raw_slot_entry, slot_table_frames, table_len, tables_fault};
ghost use Rattle.plain_machine.specs.UsableArea.{bad_slots_of, has_bad_slots_of};
ghost use Rattle.swap_slots.specs.Entries.{entry_of_word, word_of};
ghost use Rattle.machine.specs.Running.{slot_table_of};

use crate::Hardware;
use crate::fresh::is_bad;
use crate::tasks::is_valid;
use bitflags::Flags;
use definitions::ENTRIES_PER_FRAME;
use frame_arena::Frames;
use frame_table::{PageFlags, entry};
use image_format::Area;
use swap_slots::{SlotEntry, SlotTable};

/// The highest number of a task. The lowest is 1.
const MOST_TASKS: u32 = 64;

/// Returns a machine's slot table.
pub fn slot_table(hw: &Hardware) -> SlotTable
    ensures table { result ≡ slot_table_of hw.now }
    ensures hardware { IsHardware hw.now }
{
    SlotTable {
        first: hw.slot_table(),
        slots: hw.slots(),
    }
}

/// Checks that the tables in memory are well formed. Returns the first table frame at fault: it isn't saveable, has an
/// owner, or has an entry that no valid page frame, or no slot, may have.
pub fn tables_fit(frames: &Frames, hw: &Hardware) -> Result<(), u32>
    requires { length frames.now ≡ top hw.now.zones }
    ensures fits { IsOk result ↔ (tables_fault hw.now frames.now ≡ None) }
    ensures fault { IfErr result (λ f. tables_fault hw.now frames.now ≡ Some f) }
    ensures tables { IsOk result → Fits hw.now frames.now }
{
    frames.are_pages();
    let frame_table = frame_table_fits(frames, hw);
    let slot_table = slot_table_fits(frames, hw);
    if hw.frame_table() < hw.slot_table() {
        frame_table.and(slot_table)
    } else {
        slot_table.and(frame_table)
    }
}

/// Checks the page frames of the frame table. Returns the first at fault.
fn frame_table_fits(frames: &Frames, hw: &Hardware) -> Result<(), u32>
    requires { length frames.now ≡ top hw.now.zones }
    ensures { MatchResult result
        (λ u. find (is_table_at_fault hw.now frames.now) (frame_table_frames hw.now) ≡ None)
        (λ f. find (is_table_at_fault hw.now frames.now) (frame_table_frames hw.now) ≡ Some f) }
{
    for i in 0..table_len(hw.zones().top()) {
        if !frame_table_frame_fits(frames, hw, i) {
            return Err(hw.frame_table() + i);
        }
    }
    Ok(())
}

/// Checks the page frames of the slot table. Returns the first at fault.
fn slot_table_fits(frames: &Frames, hw: &Hardware) -> Result<(), u32>
    requires { length frames.now ≡ top hw.now.zones }
    ensures { MatchResult result
        (λ u. find (is_table_at_fault hw.now frames.now) (slot_table_frames hw.now) ≡ None)
        (λ f. find (is_table_at_fault hw.now frames.now) (slot_table_frames hw.now) ≡ Some f) }
{
    for i in 0..table_len(hw.slots()) {
        if !slot_table_frame_fits(frames, hw, i) {
            return Err(hw.slot_table() + i);
        }
    }
    Ok(())
}

/// Returns how many page frames a table with `entries` entries takes.
pub(crate) fn table_len(entries: u32) -> u32
    ensures { result ≡ table_len entries }
{
    entries.div_ceil(ENTRIES_PER_FRAME)
}

/// Returns whether page frame `i` of the frame table, from 0, has no fault: its own entry, and the entries in it.
fn frame_table_frame_fits(frames: &Frames, hw: &Hardware, i: u32) -> bool
    requires size { length frames.now ≡ top hw.now.zones }
    requires within { i < table_len (top hw.now.zones) }
    ensures { result ≡ not (is_table_at_fault hw.now frames.now (hw.now.frame_table + i)) }
{
    is_used(frames, hw, hw.frame_table() + i) && entries_fit(frames, hw, i)
}

/// Returns whether page frame `i` of the slot table, from 0, has no fault: its own entry, and the entries in it.
fn slot_table_frame_fits(frames: &Frames, hw: &Hardware, i: u32) -> bool
    requires size { length frames.now ≡ top hw.now.zones }
    requires within { i < table_len hw.now.slots }
    ensures { result ≡ not (is_table_at_fault hw.now frames.now (hw.now.slot_table + i)) }
{
    is_used(frames, hw, hw.slot_table() + i) && slots_fit(frames, hw, i)
}

/// Returns whether the frame table says of a table frame that it is saveable and no task's.
fn is_used(frames: &Frames, hw: &Hardware, f: u32) -> bool
    requires size { length frames.now ≡ top hw.now.zones }
    requires table { IsTableFrame hw.now f }
    ensures { IsTrue result ↔ ((is_saveable (page_flags (frame_entry hw.now frames.now f)) ≡ true)
        × (owner_of (frame_entry hw.now frames.now f) ≡ 0)) }
{
    let (flags, owner) = entry(frames, hw.frame_table(), f);
    is_saveable(flags) && owner == 0
}

/// Returns whether an image saves a page frame with these flags (saveable_page, kernel/power/snapshot.c).
fn is_saveable(flags: PageFlags) -> bool
    ensures { result ≡ is_saveable (bits_of flags) }
{
    !flags.intersects(PageFlags::FREE)
        && !flags.intersects(PageFlags::OFFLINE)
        && !flags.intersects(PageFlags::GUARD)
        && !(flags.intersects(PageFlags::RESERVED)
            && (flags.intersects(PageFlags::UNMAPPED) || flags.intersects(PageFlags::NOSAVE)))
}

/// Returns whether the entries in page frame `i` of the frame table are well formed, for valid page frames.
fn entries_fit(frames: &Frames, hw: &Hardware, i: u32) -> bool
    requires size { length frames.now ≡ top hw.now.zones }
    requires within { i < 128 }
    ensures { IsTrue result ↔ ((p : ℕ) → p / ENTRIES_PER_FRAME ≡ i → Contains (numbers hw.now.zones) p →
        is_well_formed (frame_entry hw.now frames.now p) ≡ true) }
{
    for p in ENTRIES_PER_FRAME * i..ENTRIES_PER_FRAME * (i + 1) {
        if !entry_fits(frames, hw, p) {
            return false;
        }
    }
    true
}

/// Returns whether a page frame's entry is well formed, if the page frame is valid.
fn entry_fits(frames: &Frames, hw: &Hardware, p: u32) -> bool
    requires { length frames.now ≡ top hw.now.zones }
    ensures { IsTrue result ↔ (Contains (numbers hw.now.zones) p →
        is_well_formed (frame_entry hw.now frames.now p) ≡ true) }
{
    if !is_valid(hw, p) {
        return true;
    }
    let (flags, owner) = entry(frames, hw.frame_table(), p);
    is_well_formed(flags.bits(), owner)
}

/// Returns whether a page frame may have these flags and this owner: no flag above CACHE, nothing beside FREE, and
/// nothing but CACHE beside an owner.
fn is_well_formed(flags: u16, owner: u16) -> bool
    ensures { result ≡ is_well_formed (entry_of flags owner) }
{
    flags < 128
        && u32::from(owner) <= MOST_TASKS
        && (flags & 1 == 0 || flags == 1 && owner == 0)
        && (flags == 0 || flags == 64 || owner == 0)
}

/// Returns whether the entries in page frame `i` of the slot table are ones that their slots may have.
fn slots_fit(frames: &Frames, hw: &Hardware, i: u32) -> bool
    requires size { length frames.now ≡ top hw.now.zones }
    requires within { i < 128 }
    ensures { IsTrue result ↔ ((s : ℕ) → s / ENTRIES_PER_FRAME ≡ i → s < hw.now.slots →
        is_slot_entry s (raw_slot_entry hw.now frames.now s) ≡ true) }
{
    for slot in ENTRIES_PER_FRAME * i..hw.slots().min(ENTRIES_PER_FRAME * (i + 1)) {
        if !slot_fits(frames, hw, slot) {
            return false;
        }
    }
    true
}

/// Returns the entry of a slot in the slot table.
fn slot_entry(frames: &Frames, hw: &Hardware, slot: u32) -> SlotEntry
    requires size { length frames.now ≡ top hw.now.zones }
    requires within { slot < hw.now.slots }
    ensures entry { result ≡ entry_of_word (raw_slot_entry hw.now frames.now slot) }
    ensures word { word_of result ≡ raw_slot_entry hw.now frames.now slot }
{
    slot_table(hw).entry(frames, slot)
}

/// Returns whether a slot has an entry that it may have: bad, free or a task's. Slot 0, the header's, is bad.
fn slot_fits(frames: &Frames, hw: &Hardware, slot: u32) -> bool
    requires size { length frames.now ≡ top hw.now.zones }
    requires within { slot < hw.now.slots }
    ensures { result ≡ is_slot_entry slot (raw_slot_entry hw.now frames.now slot) }
{
    match slot_entry(frames, hw, slot) {
        SlotEntry::Bad => true,
        SlotEntry::Free => slot != 0,
        SlotEntry::Task(task) => slot != 0 && task <= MOST_TASKS,
        SlotEntry::Image => false,
    }
}

/// Returns whether exactly the area's bad slots, slot 0 among them, are bad in the slot table.
pub fn has_bad_slots(frames: &Frames, hw: &Hardware, area: &Area) -> bool
    requires { length frames.now ≡ top hw.now.zones }
    ensures { result ≡ has_bad_slots_of hw.now frames.now area.now }
{
    are_named(frames, hw, area) && named_are_bad(frames, hw, area)
}

/// Returns whether each bad slot of the slot table is one of the area's.
fn are_named(frames: &Frames, hw: &Hardware, area: &Area) -> bool
    requires { length frames.now ≡ top hw.now.zones }
    ensures { IsTrue result ↔ ((s : ℕ) → s < hw.now.slots → raw_slot_entry hw.now frames.now s ≡ bad_slot →
        has (bad_slots_of area.now) s ≡ true) }
{
    for slot in 0..hw.slots() {
        if is_bad_slot(frames, hw, slot) && !names(area, slot) {
            return false;
        }
    }
    true
}

/// Returns whether a slot is bad in the slot table.
fn is_bad_slot(frames: &Frames, hw: &Hardware, slot: u32) -> bool
    requires size { length frames.now ≡ top hw.now.zones }
    requires within { slot < hw.now.slots }
    ensures { IsTrue result ↔ (raw_slot_entry hw.now frames.now slot ≡ bad_slot) }
{
    matches!(slot_entry(frames, hw, slot), SlotEntry::Bad)
}

/// Returns whether a slot is one of an area's bad slots.
fn names(area: &Area, slot: u32) -> bool
    ensures { result ≡ has (bad_slots_of area.now) slot }
{
    slot == 0 || is_bad(area, slot)
}

/// Returns whether each of the area's bad slots is bad in the slot table, if the table has the slot.
fn named_are_bad(frames: &Frames, hw: &Hardware, area: &Area) -> bool
    requires { length frames.now ≡ top hw.now.zones }
    ensures { IsTrue result ↔ ((s : ℕ) → s < hw.now.slots → has (bad_slots_of area.now) s ≡ true →
        raw_slot_entry hw.now frames.now s ≡ bad_slot) }
{
    let count = (area.count as usize).min(area.bad.len());
    for &slot in &area.bad[..count] {
        if !is_bad_or_beyond(frames, hw, slot) {
            return false;
        }
    }
    is_bad_or_beyond(frames, hw, 0)
}

/// Returns whether a slot is bad in the slot table or lies beyond its end.
fn is_bad_or_beyond(frames: &Frames, hw: &Hardware, slot: u32) -> bool
    requires { length frames.now ≡ top hw.now.zones }
    ensures { IsTrue result ↔ (slot < hw.now.slots → raw_slot_entry hw.now frames.now slot ≡ bad_slot) }
{
    slot >= hw.slots() || is_bad_slot(frames, hw, slot)
}
