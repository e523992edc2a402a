ghost use Rattle.std.specs.Prelude.{◌≡◌, ℕ, ◌≤◌, ◌↔◌, List, take, Err, IsTrue, IfOk};
ghost use Rattle.definitions.specs.Disk.{HasRisen};
ghost use Rattle.definitions.specs.ZoneFacts.{AreZones};
ghost use Rattle.dump_file.specs.Dump.{zones_fault};
ghost use Rattle.dump_file.specs.Fields.{map_byte, zone_count, zones};
ghost use Rattle.dump_file.specs.Reading.{IsRead, IsReadTo};

use crate::dump::{DumpKind, DumpStop};
use crate::fill::{fault, read_pair};
use byte_streams::Source;
use frame_sets::Zones;

/// The byte at which the zones begin.
pub(crate) const ZONES: u64 = 424;

/// The most zones that a dump may have.
pub(crate) const MOST_ZONES: usize = 16;

/// Reads `count` zones, each its first number and its count.
pub(crate) fn read_zones<S: Source>(
    source: &mut S,
    count: usize,
) -> Result<[(u32, u32); MOST_ZONES], DumpStop>
    requires some { 1 ≤ count }
    requires few { count ≤ 16 }
    ensures read { (bytes : List ℕ) → IsReadTo bytes 424 (S.remaining source.old) → count ≡ zone_count bytes →
        IsRead bytes (zones_fault bytes) (map_byte bytes) result (S.remaining source.new) }
    ensures zones { IfOk result (λ pairs. (bytes : List ℕ) → IsReadTo bytes 424 (S.remaining source.old) →
        count ≡ zone_count bytes → take count pairs ≡ zones bytes) }
    ensures are_zones { IfOk result (λ pairs. AreZones (take count pairs)) }
    ensures counted { S.faults source.old ≤ S.faults source.new }
    ensures cause { result ≡ Err DumpStop.SourceFault → HasRisen (S.faults source.old) (S.faults source.new) }
    ensures memory { result ≡ Err DumpStop.NoMemory → ⊥ }
{
    let mut pairs = [(0, 0); MOST_ZONES];
    for j in 0..count {
        let at = ZONES + 8 * j as u64;
        let pair = read_pair(source, at)?;
        pairs[j] = pair;
        if !are_zones(&pairs[..j + 1]) {
            return Err(fault(DumpKind::Zone, at));
        }
    }
    Ok(pairs)
}

/// Returns whether each zone is valid, and lies above the one before.
fn are_zones(pairs: &[(u32, u32)]) -> bool
    ensures { IsTrue result ↔ AreZones pairs.now }
{
    Zones::of(pairs).is_ok()
}
