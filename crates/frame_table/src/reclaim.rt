//! Drops page frames that hold what can be read again, until an image is as small as wanted (this project's own policy;
//! in Linux shrink_all_memory, mm/vmscan.c, for hibernate_preallocate_memory, kernel/power/snapshot.c).

ghost use Rattle.std.specs.Prelude.{◌≡◌, ℕ, ◌+◌, ◌-◌, ◌/◌, ◌<◌, ◌≤◌, ◌↔◌, ◌==◌, IsTrue, filter, take, List, length};
ghost use Rattle.std.specs.List.{Contains, range_with_len};
ghost use Rattle.definitions.specs.Zones.{numbers, top, zone_end};
ghost use Rattle.definitions.specs.ZoneFacts.{IsZone};
ghost use Rattle.definitions.specs.Tables.{HasTable, entry_at, page_flags, with_entries};
ghost use Rattle.definitions.specs.Tables.{saveable_frames};
ghost use Rattle.frame_table.specs.Drop.{is_in_runs, may_drop, droppable_frames, dropped_frames};
ghost use Rattle.frame_table.specs.Tests.{saveable_by_entry};
ghost use Rattle.definitions.specs.declared.counts.TheConstants.{ENTRIES_PER_FRAME};

use crate::states::{PageFlags, entry, set_entry};
use crate::view::{View, saveable};
use bitflags::Flags;
use frame_arena::Frames;
use frame_sets::Zones;

/// Returns whether page frame `p` may be dropped: it is valid, its only flag is CACHE, and it lies in none of the runs
/// (first, count) that are kept.
pub fn droppable(view: &View, keep: &[(u32, u32)], p: u32) -> bool
    requires { HasTable view.now.frames.now view.now.table (top view.now.zones.now) }
    ensures { IsTrue result ↔ Contains (droppable_frames view.now.zones.now view.now.table keep.now view.now.frames.now)
        p }
{
    view.zones.valid(p) && may_drop(view.frames, view.table, keep, p)
}

/// Drops the first of the page frames that may be dropped, until `want` saveable ones are left or no more may be
/// dropped: their entries in the frame table, which begins at page frame `table`, become FREE. Returns how many it
/// dropped, and how many saveable page frames are left.
pub fn shrink(
    frames: &mut Frames,
    zones: &Zones,
    table: u32,
    keep: &[(u32, u32)],
    want: u64,
) -> (u32, u32)
    requires { HasTable frames.old table (top zones.now) }
    ensures frames { frames.new ≡ with_entries frames.old table
        (dropped_frames zones.now table keep.now want frames.old) 1 }
    ensures dropped { result.0 ≡ length (dropped_frames zones.now table keep.now want frames.old) }
    ensures left { result.1 ≡ length (saveable_frames zones.now table frames.new) }
    ensures rest { result.1 ≡ length (saveable_frames zones.now table frames.old) - length
        (dropped_frames zones.now table keep.now want frames.old) }
    ensures len { length frames.new ≡ length frames.old }
{
    frames.are_pages();
    let saved = count_saveable(frames, zones, table);
    let most = u64::from(saved).saturating_sub(want) as u32;
    let mut dropped = 0;
    for &zone in zones.as_slice() {
        dropped += drop_in_zone(frames, table, keep, zone, most - dropped);
    }
    (dropped, saved - dropped)
}

/// Returns how many page frames are saveable.
fn count_saveable(frames: &Frames, zones: &Zones, table: u32) -> u32
    requires { HasTable frames.now table (top zones.now) }
    ensures { result ≡ length (saveable_frames zones.now table frames.now) }
{
    let view = View {
        frames,
        zones,
        table,
    };
    let mut count = 0;
    for &zone in zones.as_slice() {
        count += saveable_in_zone(&view, zone);
    }
    count
}

/// Returns how many page frames of a zone are saveable.
fn saveable_in_zone(view: &View, zone: (u32, u32)) -> u32
    requires zone { IsZone zone }
    requires valid { (p : ℕ) → zone.0 ≤ p → p < zone_end zone → Contains (numbers view.now.zones.now) p }
    requires table { HasTable view.now.frames.now view.now.table (top view.now.zones.now) }
    ensures { result ≡ length (filter (saveable_by_entry view.now.table view.now.frames.now)
        (range_with_len zone.0 zone.1)) }
{
    let (start, count) = zone;
    let mut saved = 0;
    for p in start..start + count {
        if saveable(view, p) {
            saved += 1;
        }
    }
    saved
}

/// Drops the first of a zone's page frames that may be dropped, at most `most`.
fn drop_in_zone(
    frames: &mut Frames,
    table: u32,
    keep: &[(u32, u32)],
    zone: (u32, u32),
    most: u32,
) -> u32
    requires zone { IsZone zone }
    requires table { HasTable frames.old table (zone_end zone) }
    ensures frames { frames.new ≡ with_entries frames.old table
        (take most (filter (may_drop keep.now table frames.old) (range_with_len zone.0 zone.1))) 1 }
    ensures dropped { result ≡ length
        (take most (filter (may_drop keep.now table frames.old) (range_with_len zone.0 zone.1))) }
    ensures len { length frames.new ≡ length frames.old }
{
    frames.are_pages();
    let (start, count) = zone;
    let mut dropped = 0;
    for p in start..start + count {
        if dropped < most && may_drop(frames, table, keep, p) {
            set_entry(frames, table, p, PageFlags::FREE, 0);
            dropped += 1;
        }
    }
    dropped
}

/// Returns whether page frame `p`, a valid one, may be dropped.
fn may_drop(frames: &Frames, table: u32, keep: &[(u32, u32)], p: u32) -> bool
    requires { table + p / ENTRIES_PER_FRAME < length frames.now }
    ensures { result ≡ may_drop keep.now table frames.now p }
{
    let (flags, _) = entry(frames, table, p);
    flags == PageFlags::CACHE && !lies_in(keep, p)
}

/// Returns whether page frame `p` lies in one of the runs.
fn lies_in(runs: &[(u32, u32)], p: u32) -> bool
    ensures { result ≡ is_in_runs runs.now p }
{
    runs.iter()
        .any(|&(first, count)| first <= p && p - first < count)
}
