ghost use Rattle.std.specs.Prelude.{◌≡◌, ℕ, ◌+◌, ◌*◌, ◌^◌, ◌<◌, ◌≤◌, ◌↔◌, List, Some, None, Err, IsOk, length, IsTrue};
ghost use Rattle.std.specs.Prelude.{IfOk, IfSome};
ghost use Rattle.std.specs.List.{Contains};
ghost use Rattle.definitions.specs.Bytes.{bytes_at, zero_page};
ghost use Rattle.definitions.specs.Disk.{HasRisen};
ghost use Rattle.definitions.specs.Streams.{HandsOut, IsUsedUp};
ghost use Rattle.definitions.specs.Tables.{with_frame};
ghost use Rattle.definitions.specs.Zones.{numbers, top};
ghost use Rattle.dump_file.specs.Dump.{fault_of_record, is_above, records_fault};
ghost use Rattle.dump_file.specs.Fields.{contents, number, record_byte};
ghost use Rattle.dump_file.specs.Reading.{IsRead, IsReadTo};

use crate::dump::{DumpKind, DumpStop};
use crate::fill::{fault, read_number, take_exact};
use byte_streams::Source;
use frame_arena::Frames;
use frame_sets::Zones;

/// The number of bytes of a record: a page frame's number and its content.
pub(crate) const RECORD: u64 = 4100;

/// Reads `count` records, the first of which begins at byte `first`, into page frames of zeros.
pub(crate) fn read_records<S: Source>(
    source: &mut S,
    zones: &Zones,
    first: u64,
    count: u32,
    frames: &mut Frames,
) -> Result<(), DumpStop>
    requires size { length frames.old ≡ top zones.now }
    requires early { first ≤ 2 ^ 32 }
    ensures read { (bytes : List ℕ) → IsReadTo bytes first (S.remaining source.old) →
        IsRead bytes (records_fault zones.now bytes first count) (record_byte first count) result
        (S.remaining source.new) }
    ensures frames { (bytes : List ℕ) → IsReadTo bytes first (S.remaining source.old) →
        frames.old ≡ contents bytes first 0 (top zones.now) → IsOk result →
        frames.new ≡ contents bytes first count (top zones.now) }
    ensures size { length frames.new ≡ length frames.old }
    ensures counted { S.faults source.old ≤ S.faults source.new }
    ensures cause { result ≡ Err DumpStop.SourceFault → HasRisen (S.faults source.old) (S.faults source.new) }
    ensures memory { result ≡ Err DumpStop.NoMemory → ⊥ }
{
    let mut before = None;
    let mut page = [0; 4096];
    for j in 0..count {
        let at = first + RECORD * u64::from(j);
        before = Some(read_record(source, zones, at, before, &mut page, frames)?);
    }
    Ok(())
}

/// Reads the record that begins at byte `at` and comes after one of page frame `before`. Returns its page frame.
fn read_record<S: Source>(
    source: &mut S,
    zones: &Zones,
    at: u64,
    before: Option<u32>,
    page: &mut [u8; 4096],
    frames: &mut Frames,
) -> Result<u32, DumpStop>
    requires size { length frames.old ≡ top zones.now }
    requires early { at ≤ 2 ^ 47 }
    ensures read { (bytes : List ℕ) → IsReadTo bytes at (S.remaining source.old) →
        IsRead bytes (fault_of_record zones.now bytes before at) (at + 4100) result (S.remaining source.new) }
    ensures frame { IfOk result (λ p. (p < length frames.old) × ((bytes : List ℕ) →
        IsReadTo bytes at (S.remaining source.old) → p ≡ number bytes at)) }
    ensures frames { IfOk result (λ p. (bytes : List ℕ) → IsReadTo bytes at (S.remaining source.old) →
        frames.new ≡ with_frame frames.old p (bytes_at 4096 bytes (at + 4))) }
    ensures size { length frames.new ≡ length frames.old }
    ensures counted { S.faults source.old ≤ S.faults source.new }
    ensures cause { result ≡ Err DumpStop.SourceFault → HasRisen (S.faults source.old) (S.faults source.new) }
    ensures memory { result ≡ Err DumpStop.NoMemory → ⊥ }
{
    let p = read_number(source, at)?;
    if !zones.valid(p) {
        return Err(fault(DumpKind::Frame, at));
    }
    if !is_above(before, p) {
        return Err(fault(DumpKind::Order, at));
    }
    take_exact(source, page, at + 4)?;
    frames.write_bytes(p, page);
    Ok(p)
}

/// Returns whether a page frame's number is above that of the record before.
fn is_above(before: Option<u32>, p: u32) -> bool
    ensures { result ≡ is_above before p }
{
    match before {
        Some(before) => before < p,
        None => true,
    }
}
