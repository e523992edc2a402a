ghost use Rattle.std.specs.Prelude.{◌≡◌, ℕ, ◌<◌, ◌≤◌, ◌↔◌, IsTrue, length, filter};
ghost use Rattle.std.specs.List.{Contains, range_with_len};
ghost use Rattle.definitions.specs.Zones.{numbers, top, zone_end};
ghost use Rattle.definitions.specs.ZoneFacts.{IsZone};
ghost use Rattle.definitions.specs.Tables.{frame};
ghost use Rattle.plain_machine.specs.Machine.{unused};
ghost use Rattle.frame_table.specs.Tests.{saveable_by_entry};
ghost use Rattle.swap_slots.specs.Entries.{entry_of_word, word_of};
ghost use Rattle.dump_tools.specs.Counts.{frames_of, is_of, seen, slots_of};

use frame_table::{View, count_free, entry, saveable};
use machine::{Dump, slot_table};
use swap_slots::SlotEntry;

/// The page frames that are counted together.
#[derive(Clone, Copy, Debug, PartialEq, Eq)]
pub enum Kind {
    Saveable,
    /// Saveable, and not all zero.
    WithData,
    /// Owned by this task.
    OwnedBy(u16),
}

/// Returns how many page frames are of a kind.
pub(crate) fn count_frames(dump: &Dump, kind: Kind) -> u32
    requires { length dump.now.frames ≡ top dump.now.hw.zones }
    ensures count { result ≡ length (frames_of dump.now.hw dump.now.frames kind) }
    ensures few { result ≤ 65536 }
{
    let mut total = 0;
    for &zone in dump.hw.zones().as_slice() {
        total += count_in_zone(dump, kind, zone);
    }
    total
}

/// Returns how many page frames of a zone are of a kind.
fn count_in_zone(dump: &Dump, kind: Kind, zone: (u32, u32)) -> u32
    requires size { length dump.now.frames ≡ top dump.now.hw.zones }
    requires zone { IsZone zone }
    requires valid { (p : ℕ) → zone.0 ≤ p → p < zone_end zone → Contains (numbers dump.now.hw.zones) p }
    ensures { result ≡ length (filter (is_of dump.now.hw dump.now.frames kind) (range_with_len zone.0 zone.1)) }
{
    let (start, count) = zone;
    let mut total = 0;
    for p in start..start + count {
        if is_of(dump, kind, p) {
            total += 1;
        }
    }
    total
}

/// Returns whether a page frame is of a kind.
fn is_of(dump: &Dump, kind: Kind, p: u32) -> bool
    requires size { length dump.now.frames ≡ top dump.now.hw.zones }
    requires valid { Contains (numbers dump.now.hw.zones) p }
    ensures { result ≡ is_of dump.now.hw dump.now.frames kind p }
{
    dump.hw.is_hardware();
    match kind {
        Kind::Saveable => is_saveable(dump, p),
        Kind::WithData => is_saveable(dump, p) && !dump.frames.is_zero(p),
        Kind::OwnedBy(task) => entry(&dump.frames, dump.hw.frame_table(), p).1 == task,
    }
}

/// Returns whether a valid page frame is saveable.
fn is_saveable(dump: &Dump, p: u32) -> bool
    requires size { length dump.now.frames ≡ top dump.now.hw.zones }
    requires valid { Contains (numbers dump.now.hw.zones) p }
    ensures { result ≡ saveable_by_entry dump.now.hw.frame_table dump.now.frames p }
{
    let view = View {
        frames: &dump.frames,
        zones: dump.hw.zones(),
        table: dump.hw.frame_table(),
    };
    saveable(&view, p)
}

/// Returns how many page frames are free.
pub(crate) fn count_free_frames(dump: &Dump) -> u32
    requires { length dump.now.frames ≡ top dump.now.hw.zones }
    ensures { result ≡ length (unused dump.now.hw dump.now.frames) }
{
    count_free(&View {
        frames: &dump.frames,
        zones: dump.hw.zones(),
        table: dump.hw.frame_table(),
    })
}

/// Returns how many slots have this entry, as it is counted.
pub(crate) fn count_slots(dump: &Dump, entry: SlotEntry) -> u32
    requires size { length dump.now.frames ≡ top dump.now.hw.zones }
    requires entry { entry_of_word (word_of entry) ≡ entry }
    ensures { result ≡ length (slots_of dump.now.hw dump.now.frames (word_of entry)) }
{
    let table = slot_table(&dump.hw);
    let mut total = 0;
    for slot in 0..table.slots {
        if is_seen_as(table.entry(&dump.frames, slot), entry) {
            total += 1;
        }
    }
    total
}

/// Returns whether a slot with an entry counts among those with another.
fn is_seen_as(entry: SlotEntry, other: SlotEntry) -> bool
    ensures { IsTrue result ↔ (seen entry ≡ other) }
{
    seen(entry) == other
}

/// Returns a slot's entry as it is counted.
fn seen(entry: SlotEntry) -> SlotEntry
    ensures { result ≡ seen entry }
{
    match entry {
        SlotEntry::Image => SlotEntry::Free,
        other => other,
    }
}
