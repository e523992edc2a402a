ghost use Rattle.std.specs.Prelude.{◌≡◌, ℕ, ◌+◌, ◌≤◌, false, true, List, [], Err, IfOk, IfSome, IsNone, IsSome};
ghost use Rattle.definitions.specs.Disk.{HasRisen};
ghost use Rattle.definitions.specs.FileMaps.{IsFileMap};
ghost use Rattle.definitions.specs.ZoneFacts.{AreZones};
ghost use Rattle.machine.specs.HardFault.{has_tables};
ghost use Rattle.dump_file.specs.Dump.{head_fault};
ghost use Rattle.dump_file.specs.Fields.{first_record, record_count};
ghost use Rattle.dump_file.specs.Reading.{IsHeader, IsMade, IsRead, IsReadTo, hardware_by, record_count_fault};

use crate::dump::{DumpKind, DumpStop};
use crate::extents::read_extents;
use crate::fill::{fault, read_number};
use crate::front::{Front, read_front};
use crate::zone_list::read_zones;
use byte_streams::Source;
use machine::{Hardware, Parts};

/// What a dump says before its records.
#[derive(Clone, Copy)]
pub(crate) struct Header {
    pub(crate) hw: Hardware,
    /// Where the records begin, and how many there are.
    pub(crate) first: u64,
    pub(crate) count: u32,
}

/// Reads what stands before the records.
pub(crate) fn read_header<S: Source>(source: &mut S) -> Result<Header, DumpStop>
    ensures read { (bytes : List ℕ) → IsReadTo bytes 0 (S.remaining source.old) →
        IsRead bytes (head_fault bytes) (first_record bytes) result (S.remaining source.new) }
    ensures header { IfOk result (λ h. (bytes : List ℕ) → IsReadTo bytes 0 (S.remaining source.old) →
        IsHeader bytes h.hw h.first h.count) }
    ensures early { IfOk result (λ h. h.first ≤ 1332) }
    ensures no_region { IfOk result (λ h. h.hw.regions ≡ []) }
    ensures counted { S.faults source.old ≤ S.faults source.new }
    ensures cause { result ≡ Err DumpStop.SourceFault → HasRisen (S.faults source.old) (S.faults source.new) }
    ensures memory { result ≡ Err DumpStop.NoMemory → ⊥ }
{
    let front = read_front(source)?;
    let zone_count = front.zone_count as usize;
    let zones = read_zones(source, zone_count)?;
    let extents = read_extents(source, &front)?;
    let Some(hw) = hardware_of(&front, &zones[..zone_count], &extents.list[..extents.len]) else {
        return Err(fault(DumpKind::Header, 16));
    };
    let count = read_count(source, &hw, extents.end)?;
    let first = extents.end + 4;
    Ok(Header { hw, first, count })
}

/// Returns the hardware of a front, zones and extents, if its tables lie on valid page frames and share none.
fn hardware_of(front: &Front, zones: &[(u32, u32)], extents: &[(u32, u32, u32)]) -> Option<Hardware>
    requires slots { (2 ≤ front.now.slots) × (front.now.slots ≤ 131072) }
    requires zones { AreZones zones.now }
    requires map { IsFileMap extents.now front.now.slots }
    ensures some { IfSome result (λ hw. hw ≡ hardware_by front.now zones.now extents.now) }
    ensures fit { IsSome result → has_tables (hardware_by front.now zones.now extents.now) ≡ true }
    ensures none { IsNone result → has_tables (hardware_by front.now zones.now extents.now) ≡ false }
{
    let parts = Parts {
        zones,
        slots: front.slots,
        frame_table: front.frame_table,
        slot_table: front.slot_table,
        regions: &[],
        ident: front.ident,
        hw_sig: front.hw_sig,
        extents,
    };
    match Hardware::of(&parts) {
        Ok(hw) => Some(hw),
        Err(_) => None,
    }
}

/// Reads the number of records, which stands at byte `end`.
fn read_count<S: Source>(source: &mut S, hw: &Hardware, end: u64) -> Result<u32, DumpStop>
    requires early { end ≤ 1328 }
    ensures read { (bytes : List ℕ) → IsReadTo bytes end (S.remaining source.old) → IsMade bytes hw.now end →
        IsRead bytes (record_count_fault bytes) (first_record bytes) result (S.remaining source.new) }
    ensures count { IfOk result (λ n. (bytes : List ℕ) → IsReadTo bytes end (S.remaining source.old) →
        IsMade bytes hw.now end → n ≡ record_count bytes) }
    ensures counted { S.faults source.old ≤ S.faults source.new }
    ensures cause { result ≡ Err DumpStop.SourceFault → HasRisen (S.faults source.old) (S.faults source.new) }
    ensures memory { result ≡ Err DumpStop.NoMemory → ⊥ }
{
    let count = read_number(source, end)?;
    if count > hw.zones().count() {
        return Err(fault(DumpKind::Frame, end));
    }
    Ok(count)
}
