//! Finds the page frames that an image saves (kernel/power/snapshot.c, saveable_page), and those that are free.

ghost use Rattle.std.specs.Prelude.{◌≡◌, ℕ, ◌+◌, ◌/◌, ◌<◌, ◌≤◌, ◌↔◌, ◌++◌, IsTrue, filter, List, length};
ghost use Rattle.std.specs.List.{Contains, range_with_len};
ghost use Rattle.definitions.specs.Zones.{numbers, top, zone_end};
ghost use Rattle.definitions.specs.ZoneFacts.{IsZone};
ghost use Rattle.definitions.specs.Tables.{HasTable, entry_at, is_saveable};
ghost use Rattle.definitions.specs.Tables.{saveable_frames, free_frames};
ghost use Rattle.frame_table.specs.Flags.{bits_of};
ghost use Rattle.frame_table.specs.Tests.{saveable_by_entry, free_by_entry};
ghost use Rattle.definitions.specs.declared.counts.TheConstants.{ENTRIES_PER_FRAME};

use crate::states::{PageFlags, entry};
use bitflags::Flags;
use frame_arena::Frames;
use frame_sets::{Bitmap, Zones};

/// The source of the lists of page frames: the memory, its zones, and the first page frame of the frame table.
#[derive(Clone, Copy)]
pub struct View<'a> {
    pub frames: &'a Frames,
    pub zones: &'a Zones,
    pub table: u32,
}

/// Returns whether page frame `p` is saveable. One that isn't valid isn't saveable.
pub fn saveable(view: &View, p: u32) -> bool
    requires { HasTable view.now.frames.now view.now.table (top view.now.zones.now) }
    ensures { IsTrue result ↔ Contains (saveable_frames view.now.zones.now view.now.table view.now.frames.now) p }
{
    view.zones.valid(p) && is_saveable(entry(view.frames, view.table, p).0)
}

/// Makes `set` the saveable page frames, and returns how many there are.
pub fn mark_all(view: &View, set: &mut Bitmap) -> u32
    requires table { HasTable view.now.frames.now view.now.table (top view.now.zones.now) }
    requires zones { set.old.zones ≡ view.now.zones.now }
    ensures set { set.new ≡ record set.old {
      members = saveable_frames view.now.zones.now view.now.table
          view.now.frames.now;
    } }
    ensures count { result ≡ length (saveable_frames view.now.zones.now view.now.table view.now.frames.now) }
{
    set.clear_all();
    for &zone in view.zones.as_slice() {
        mark_zone(view, zone, set);
    }
    set.len()
}

/// Returns how many page frames are free.
pub fn count_free(view: &View) -> u32
    requires { HasTable view.now.frames.now view.now.table (top view.now.zones.now) }
    ensures { result ≡ length (free_frames view.now.zones.now view.now.table view.now.frames.now) }
{
    let mut count = 0;
    for &zone in view.zones.as_slice() {
        count += free_in_zone(view, zone);
    }
    count
}

/// Returns whether a page frame with these flags may be saved.
fn is_saveable(flags: PageFlags) -> bool
    ensures { result ≡ is_saveable (bits_of flags) }
{
    !flags.intersects(PageFlags::FREE)
        && !flags.intersects(PageFlags::OFFLINE)
        && !flags.intersects(PageFlags::GUARD)
        && !(flags.intersects(PageFlags::RESERVED)
            && (flags.intersects(PageFlags::UNMAPPED) || flags.intersects(PageFlags::NOSAVE)))
}

/// Adds the saveable page frames of a zone that lies above the members so far.
fn mark_zone(view: &View, zone: (u32, u32), set: &mut Bitmap)
    requires zone { IsZone zone }
    requires valid { (p : ℕ) → zone.0 ≤ p → p < zone_end zone → Contains (numbers set.old.zones) p }
    requires above { (p : ℕ) → Contains set.old.members p → p < zone.0 }
    requires table { HasTable view.now.frames.now view.now.table (zone_end zone) }
    ensures { set.new ≡ record set.old {
      members = set.old.members
          ++ filter (saveable_by_entry view.now.table view.now.frames.now) (range_with_len zone.0 zone.1);
    } }
{
    let (start, count) = zone;
    for p in start..start + count {
        if is_saveable(entry(view.frames, view.table, p).0) {
            set.set(p);
        }
    }
}

/// Returns how many page frames of a zone are free.
fn free_in_zone(view: &View, zone: (u32, u32)) -> u32
    requires zone { IsZone zone }
    requires table { HasTable view.now.frames.now view.now.table (zone_end zone) }
    ensures { result ≡ length (filter (free_by_entry view.now.table view.now.frames.now)
        (range_with_len zone.0 zone.1)) }
{
    let (start, count) = zone;
    let mut free = 0;
    for p in start..start + count {
        if is_free(view, p) {
            free += 1;
        }
    }
    free
}

/// Returns whether the entry of page frame `p` is FREE, with no other flag and no owner.
fn is_free(view: &View, p: u32) -> bool
    requires { view.now.table + p / ENTRIES_PER_FRAME < length view.now.frames.now }
    ensures { result ≡ free_by_entry view.now.table view.now.frames.now p }
{
    let (flags, owner) = entry(view.frames, view.table, p);
    flags == PageFlags::FREE && owner == 0
}
