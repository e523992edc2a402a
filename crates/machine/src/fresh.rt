ghost use Rattle.std.specs.Prelude.{◌≡◌, ◌==◌, ℕ, ◌+◌, ◌<◌, ◌≤◌, List, length, take, All};
ghost use Rattle.std.specs.List.{range_with_len, list_any, find};
ghost use Rattle.definitions.specs.Tables.{HasTable};
ghost use Rattle.definitions.specs.Zones.{top};
ghost use Rattle.plain_machine.specs.Machine.{is_table_frame, is_of_table};
ghost use Rattle.plain_machine.specs.FreshMemory.{fresh_frames, fresh_entry, region_flags, with_each_entry};
ghost use Rattle.machine.specs.HardFault.{is_in_region};
ghost use Rattle.swap_slots.specs.Entries.{word_of};
ghost use Rattle.machine.specs.FreshSlots.{slot_of_area};

use crate::Hardware;
use crate::tables::slot_table;
use bitflags::Flags;
use definitions::ENTRIES_PER_FRAME;
use frame_arena::Frames;
use frame_table::{PageFlags, set_entry};
use image_format::Area;
use plain_machine::NoSwap;
use swap_slots::SlotEntry;

/// The flags of a free page frame, and of one without flags.
const FREE: u16 = 1;

const IN_USE: u16 = 0;

/// Fills the page frames with fresh memory, except for the slot table's entries: zeros and the frame table, in which
/// the tables' page frames are in use, those of a region have its flags, and all others are free.
pub fn set_fresh(frames: &mut Frames, hw: &Hardware)
    requires { length frames.old ≡ top hw.now.zones }
    ensures fresh { frames.new ≡ fresh_frames hw.now }
    ensures len { length frames.new ≡ length frames.old }
{
    frames.zero_all();
    for &(start, count) in hw.zones().as_slice() {
        set_zone(frames, hw, start, count);
    }
}

/// Sets the entries of a zone's page frames in the frame table.
fn set_zone(frames: &mut Frames, hw: &Hardware, start: u32, count: u32)
    requires number { start + count ≤ 65536 }
    requires table { HasTable frames.old hw.now.frame_table (start + count) }
    ensures set { frames.new ≡ with_each_entry (fresh_entry hw.now) (range_with_len start count) hw.now.frame_table
        frames.old }
    ensures len { length frames.new ≡ length frames.old }
{
    for p in start..start + count {
        let flags = PageFlags::from_bits_retain(fresh_flags(hw, p));
        set_entry(frames, hw.frame_table(), p, flags, 0);
    }
}

/// Returns the flags of a page frame in fresh memory.
fn fresh_flags(hw: &Hardware, p: u32) -> u16
    requires { p < 65536 }
    ensures { result ≡ fresh_entry hw.now p }
{
    if is_table_frame(hw, p) {
        IN_USE
    } else {
        region_flags(hw.regions(), p)
    }
}

/// Returns the flags of the region that has a page frame. Outside the regions the page frame is free.
fn region_flags(regions: &[(u32, u32, u32)], p: u32) -> u16
    requires { All (λ r. r.2 < 128) regions.now }
    ensures { result ≡ region_flags (find (λ r. is_in_region r p) regions.now) }
{
    let has_page = |region: &&(u32, u32, u32)| region.0 <= p && p - region.0 < region.1;
    match regions.iter().find(has_page) {
        Some(region) => region.2 as u16,
        None => FREE,
    }
}

/// Returns whether a page frame is one of the tables'.
pub(crate) fn is_table_frame(hw: &Hardware, p: u32) -> bool
    requires { p < 65536 }
    ensures { result ≡ is_table_frame hw.now p }
{
    is_of_table(hw.frame_table(), hw.zones().top(), p)
        || is_of_table(hw.slot_table(), hw.slots(), p)
}

/// Returns whether a page frame is one of a table with `entries` entries.
fn is_of_table(first: u32, entries: u32, p: u32) -> bool
    requires first { first < 65536 }
    requires entries { entries ≤ 131072 }
    ensures { result ≡ is_of_table first entries p }
{
    first <= p && p < first + entries.div_ceil(ENTRIES_PER_FRAME)
}

/// Sets the slot table's entries in fresh memory. If the area can be used, slot 0 and the bad pages are bad and all
/// other slots free; else every slot is bad.
pub fn set_slots(frames: &mut Frames, hw: &Hardware, area: &Result<Area, NoSwap>)
    requires { length frames.old ≡ top hw.now.zones }
    ensures set { frames.new ≡ with_each_entry (slot_of_area area.now) (range_with_len 0 hw.now.slots) hw.now.slot_table
        frames.old }
    ensures len { length frames.new ≡ length frames.old }
{
    let table = slot_table(hw);
    for slot in 0..table.slots {
        table.set(frames, slot, fresh_slot(area, slot));
    }
}

/// Returns the entry of a slot in a fresh slot table.
fn fresh_slot(area: &Result<Area, NoSwap>, slot: u32) -> SlotEntry
    ensures { word_of result ≡ slot_of_area area.now slot }
{
    match area {
        Ok(area) if slot != 0 && !is_bad(area, slot) => SlotEntry::Free,
        _ => SlotEntry::Bad,
    }
}

/// Returns whether an area's header names a slot as bad.
pub(crate) fn is_bad(area: &Area, slot: u32) -> bool
    ensures { result ≡ list_any (λ q. q == slot) (take area.now.count area.now.bad) }
{
    area.bad
        .iter()
        .take(area.count as usize)
        .any(|&bad| bad == slot)
}
