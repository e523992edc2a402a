ghost use Rattle.std.specs.Prelude.{◌≡◌, ◌==◌, ◌&&◌, ℕ, ◌+◌, ◌*◌, ◌^◌, ◌<◌, ◌≤◌, nat_le, true, false, List, []};
ghost use Rattle.std.specs.Prelude.{◌∷◌, length, take, Err, IfOk, IsTrue};
ghost use Rattle.definitions.specs.Disk.{HasRisen};
ghost use Rattle.definitions.specs.FileMaps.{IsFileMap};
ghost use Rattle.definitions.specs.Slots.{slots_of};
ghost use Rattle.machine.specs.HardFault.{is_extent};
ghost use Rattle.dump_file.specs.Dump.{extents_fault, layout_fault, map_fault};
ghost use Rattle.dump_file.specs.Fields.{count_byte, extents, map_byte};
ghost use Rattle.dump_file.specs.Reading.{HasExtents, HasMap, IsRead, IsReadTo, front_of};

use crate::dump::{DumpKind, DumpStop};
use crate::fill::{fault, read_pair, read_triple};
use crate::front::Front;
use crate::zone_list::ZONES;
use byte_streams::Source;
use swap_slots::FileMap;

/// The most extents that a dump may have.
const MOST_EXTENTS: usize = 64;

/// The extents of a dump: the first `len` of the list. They end at byte `end`; in version 1 the zones do.
#[derive(Clone, Copy)]
pub(crate) struct Extents {
    pub(crate) list: [(u32, u32, u32); MOST_EXTENTS],
    pub(crate) len: usize,
    pub(crate) end: u64,
}

/// Reads the extents. Version 1 has none, and is read as the one extent that lays each slot on the block of its number.
pub(crate) fn read_extents<S: Source>(source: &mut S, front: &Front) -> Result<Extents, DumpStop>
    requires slots { (2 ≤ front.now.slots) × (front.now.slots ≤ 131072) }
    requires zones { front.now.zone_count ≤ 16 }
    ensures read { (bytes : List ℕ) → IsReadTo bytes (map_byte bytes) (S.remaining source.old) →
        front.now ≡ front_of bytes →
        IsRead bytes (layout_fault bytes) (count_byte bytes) result (S.remaining source.new) }
    ensures extents { IfOk result (λ e. (bytes : List ℕ) →
        IsReadTo bytes (map_byte bytes) (S.remaining source.old) → front.now ≡ front_of bytes →
        (take e.len e.list ≡ extents bytes) × (e.end ≡ count_byte bytes)) }
    ensures is_map { IfOk result (λ e. IsFileMap (take e.len e.list) front.now.slots) }
    ensures few { IfOk result (λ e. (e.len ≤ 64) × (e.end ≤ 1328)) }
    ensures counted { S.faults source.old ≤ S.faults source.new }
    ensures cause { result ≡ Err DumpStop.SourceFault → HasRisen (S.faults source.old) (S.faults source.new) }
    ensures memory { result ≡ Err DumpStop.NoMemory → ⊥ }
{
    let map = ZONES + 8 * u64::from(front.zone_count);
    if front.is_second {
        return read_map(source, map, front.slots);
    }
    Ok(plain_map(front.slots, map))
}

/// Returns the extents of version 1, whose zones end at byte `end`.
fn plain_map(slots: u32, end: u64) -> Extents
    requires { (2 ≤ slots) × (slots ≤ 131072) }
    ensures list { take result.len result.list ≡ ((0, slots, 0) ∷ []) }
    ensures is_map { IsFileMap (take result.len result.list) slots }
    ensures len { result.len ≡ 1 }
    ensures end { result.end ≡ end }
{
    let mut list = [(0, 0, 0); MOST_EXTENTS];
    list[0] = (0, slots, 0);
    Extents { list, len: 1, end }
}

/// Reads the file map of version 2, which begins at byte `map`.
fn read_map<S: Source>(source: &mut S, map: u64, slots: u32) -> Result<Extents, DumpStop>
    requires early { map ≤ 552 }
    ensures read { (bytes : List ℕ) → IsReadTo bytes map (S.remaining source.old) → HasMap bytes map slots →
        IsRead bytes (map_fault bytes) (count_byte bytes) result (S.remaining source.new) }
    ensures extents { IfOk result (λ e. (bytes : List ℕ) → IsReadTo bytes map (S.remaining source.old) →
        HasMap bytes map slots → (take e.len e.list ≡ extents bytes) × (e.end ≡ count_byte bytes)) }
    ensures is_map { IfOk result (λ e. IsFileMap (take e.len e.list) slots) }
    ensures few { IfOk result (λ e. (e.len ≤ 64) × (e.end ≤ 1328)) }
    ensures counted { S.faults source.old ≤ S.faults source.new }
    ensures cause { result ≡ Err DumpStop.SourceFault → HasRisen (S.faults source.old) (S.faults source.new) }
    ensures memory { result ≡ Err DumpStop.NoMemory → ⊥ }
{
    let (offset, count) = read_pair(source, map)?;
    let len = count as usize;
    if !is_extent_count(len) {
        return Err(fault(DumpKind::Extent, map + 4));
    }
    let list = read_list(source, map + 8, len, slots)?;
    let end = map + 8 + 12 * len as u64;
    if !covers(&list[..len], slots) {
        return Err(fault(DumpKind::Extent, end - 12));
    }
    let start = list[0].2;
    if offset != start {
        return Err(fault(DumpKind::Extent, map));
    }
    Ok(Extents { list, len, end })
}

/// Returns whether a dump of version 2 may have this number of extents: 1 to 64.
fn is_extent_count(len: usize) -> bool
    ensures is { result ≡ (nat_le 1 len && nat_le len 64) }
    ensures bounds { IsTrue result → (1 ≤ len) × (len ≤ 64) }
{
    1 <= len && len <= MOST_EXTENTS
}

/// Reads `len` extents of version 2, the first at byte `first`.
fn read_list<S: Source>(
    source: &mut S,
    first: u64,
    len: usize,
    slots: u32,
) -> Result<[(u32, u32, u32); MOST_EXTENTS], DumpStop>
    requires early { first ≤ 2 ^ 32 }
    requires few { len ≤ 64 }
    ensures read { (bytes : List ℕ) → IsReadTo bytes first (S.remaining source.old) → HasExtents bytes first len →
        IsRead bytes (extents_fault bytes) (first + 12 * len) result (S.remaining source.new) }
    ensures list { IfOk result (λ list. (bytes : List ℕ) → IsReadTo bytes first (S.remaining source.old) →
        HasExtents bytes first len → take len list ≡ extents bytes) }
    ensures each { IfOk result (λ list. (i : ℕ) → i < len → is_extent (take len list) i ≡ true) }
    ensures counted { S.faults source.old ≤ S.faults source.new }
    ensures cause { result ≡ Err DumpStop.SourceFault → HasRisen (S.faults source.old) (S.faults source.new) }
    ensures memory { result ≡ Err DumpStop.NoMemory → ⊥ }
{
    let mut list = [(0, 0, 0); MOST_EXTENTS];
    for i in 0..len {
        let at = first + 12 * i as u64;
        let extent = read_triple(source, at)?;
        list[i] = extent;
        if !are_in_order(&list[..i + 1], slots) {
            return Err(fault(DumpKind::Extent, at));
        }
    }
    Ok(list)
}

/// Returns whether each extent is in order. How many slots they cover doesn't matter.
fn are_in_order(extents: &[(u32, u32, u32)], slots: u32) -> bool
    requires { length extents.now ≤ 64 }
    ensures each { IsTrue result → (i : ℕ) → i < length extents.now → is_extent extents.now i ≡ true }
    ensures wrong { result ≡ false → ((i : ℕ) → i < length extents.now → is_extent extents.now i ≡ true) → ⊥ }
{
    let Err(at) = FileMap::of(extents, slots) else {
        return true;
    };
    at as usize >= extents.len()
}

/// Returns whether extents, each in order, cover exactly `slots` slots.
fn covers(extents: &[(u32, u32, u32)], slots: u32) -> bool
    requires some { 1 ≤ length extents.now }
    requires few { length extents.now ≤ 64 }
    requires each { (j : ℕ) → j < length extents.now → is_extent extents.now j ≡ true }
    ensures covers { result ≡ (slots_of extents.now == slots) }
    ensures map { IsTrue result → IsFileMap extents.now slots }
{
    FileMap::of(extents, slots).is_ok()
}
