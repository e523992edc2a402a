ghost use Rattle.std.specs.Prelude.{◌≡◌, ◌⊎◌, ℕ, ◌+◌, ◌<◌, ◌≤◌, ◌↔◌, IsTrue, true, length, Contains};
ghost use Rattle.definitions.specs.Zones.{numbers, top, zone_end};
ghost use Rattle.definitions.specs.ZoneFacts.{IsZone, AreZones};
ghost use Rattle.plain_machine.specs.Machine.{IsTableFrame, table_len};
ghost use Rattle.machine.specs.HardFault.{hardware_of, has_flags, has_regions, has_slots, has_tables, is_region};
ghost use Rattle.machine.specs.HardFault.{is_region_at, region_at};
ghost use Rattle.machine.specs.Runs.{LieApart, frames_of};

use crate::hardware::Parts;
use crate::regions::MOST_REGIONS;
use crate::tables::table_len;
use frame_sets::Zones;

/// The most slots that a machine may have.
const MOST_SLOTS: u32 = 131072;

/// The highest flags: all but that of a free page frame.
const MOST_FLAGS: u32 = 126;

/// Returns whether a machine may have this number of slots.
pub(crate) fn has_slots(parts: &Parts) -> bool
    ensures { result ≡ has_slots (hardware_of parts.now) }
{
    parts.slots >= 2 && parts.slots <= MOST_SLOTS
}

/// Returns whether the page frames of the tables are valid, and the tables share none.
pub(crate) fn has_tables(parts: &Parts, zones: &Zones) -> bool
    requires zones { zones.now ≡ parts.now.zones.now }
    requires slots { has_slots (hardware_of parts.now) ≡ true }
    ensures { result ≡ has_tables (hardware_of parts.now) }
{
    let frame_table = frame_table(parts, zones);
    let slot_table = slot_table(parts);
    if !lie_apart(frame_table, slot_table) {
        return false;
    }
    has_run(zones, frame_table) && has_run(zones, slot_table)
}

/// Returns the page frames of the frame table: the first one and their count.
fn frame_table(parts: &Parts, zones: &Zones) -> (u32, u32)
    requires zones { zones.now ≡ parts.now.zones.now }
    ensures first { result.0 ≡ parts.now.frame_table }
    ensures len { result.1 ≡ table_len (top parts.now.zones.now) }
    ensures zones { AreZones parts.now.zones.now }
{
    (parts.frame_table, table_len(zones.top()))
}

/// Returns the page frames of the slot table: the first one and their count.
fn slot_table(parts: &Parts) -> (u32, u32)
    ensures first { result.0 ≡ parts.now.slot_table }
    ensures len { result.1 ≡ table_len parts.now.slots }
{
    (parts.slot_table, table_len(parts.slots))
}

/// Returns whether there are few enough regions, each is valid, and no page frame lies in two.
pub(crate) fn has_regions(parts: &Parts, zones: &Zones) -> bool
    requires zones { zones.now ≡ parts.now.zones.now }
    requires slots { has_slots (hardware_of parts.now) ≡ true }
    ensures { result ≡ has_regions (hardware_of parts.now) }
{
    if parts.regions.len() > MOST_REGIONS {
        return false;
    }
    for k in 0..parts.regions.len() {
        if !is_region_at(parts, zones, k) {
            return false;
        }
    }
    true
}

/// Returns whether region `k` is valid and shares no page frame with an earlier region.
fn is_region_at(parts: &Parts, zones: &Zones, k: usize) -> bool
    requires zones { zones.now ≡ parts.now.zones.now }
    requires slots { has_slots (hardware_of parts.now) ≡ true }
    requires within { k < length parts.now.regions.now }
    requires before { (j : ℕ) → j < k → is_region_at (hardware_of parts.now) j ≡ true }
    ensures { result ≡ is_region_at (hardware_of parts.now) k }
{
    let region = parts.regions[k];
    is_region(parts, zones, region) && lies_apart(&parts.regions[..k], region)
}

/// Returns whether a region isn't empty, has valid flags, and has valid page frames that aren't those of a table.
fn is_region(parts: &Parts, zones: &Zones, region: (u32, u32, u32)) -> bool
    requires zones { zones.now ≡ parts.now.zones.now }
    requires slots { has_slots (hardware_of parts.now) ≡ true }
    ensures { result ≡ is_region (hardware_of parts.now) region }
{
    has_flags(region) && has_frames(parts, zones, (region.0, region.1))
}

/// Returns whether a region isn't empty and has valid flags.
fn has_flags(region: (u32, u32, u32)) -> bool
    ensures { result ≡ has_flags region }
{
    let (_, count, flags) = region;
    count > 0 && flags <= MOST_FLAGS && flags % 2 == 0
}

/// Returns whether the page frames of a run are valid and not those of a table.
fn has_frames(parts: &Parts, zones: &Zones, run: (u32, u32)) -> bool
    requires zones { zones.now ≡ parts.now.zones.now }
    requires slots { has_slots (hardware_of parts.now) ≡ true }
    requires some { 0 < run.1 }
    ensures { IsTrue result ↔ ((p : ℕ) → run.0 ≤ p → p < run.0 + run.1 → Contains (numbers parts.now.zones.now) p
        × (IsTableFrame (hardware_of parts.now) p → ⊥)) }
{
    if !has_run(zones, run) {
        return false;
    }
    lie_apart(run, frame_table(parts, zones)) && lie_apart(run, slot_table(parts))
}

/// Returns whether a region, which isn't empty, shares no page frame with the regions before it.
fn lies_apart(before: &[(u32, u32, u32)], region: (u32, u32, u32)) -> bool
    ensures { IsTrue result ↔ ((j : ℕ) → j < length before.now →
        LieApart (frames_of (region_at before.now j)) (frames_of region)) }
{
    before.iter().all(|&other| lie_apart((other.0, other.1), (region.0, region.1)))
}

/// Returns whether one of two runs of page frames lies below the other. A run is its first page frame and its length.
fn lie_apart(a: (u32, u32), b: (u32, u32)) -> bool
    ensures { IsTrue result ↔ LieApart a b }
{
    let end = |run: (u32, u32)| u64::from(run.0) + u64::from(run.1);
    end(a) <= u64::from(b.0) || end(b) <= u64::from(a.0)
}

/// Returns whether each page frame of a run is valid.
fn has_run(zones: &Zones, run: (u32, u32)) -> bool
    ensures { IsTrue result ↔ ((p : ℕ) → run.0 ≤ p → p < run.0 + run.1 → Contains (numbers zones.now) p) }
{
    let (first, count) = run;
    let mut end = first;
    for &zone in zones.as_slice() {
        end = reach(zone, end);
    }
    u64::from(first) + u64::from(count) <= u64::from(end)
}

/// Returns the page frame number after the zone if `end` lies in the zone, else `end`.
fn reach(zone: (u32, u32), end: u32) -> u32
    requires { IsZone zone }
    ensures inside { zone.0 ≤ end → end < zone_end zone → result ≡ zone_end zone }
    ensures outside { (zone.0 ≤ end → end < zone_end zone → ⊥) → result ≡ end }
{
    let (start, size) = zone;
    if start <= end && end < start + size {
        start + size
    } else {
        end
    }
}
