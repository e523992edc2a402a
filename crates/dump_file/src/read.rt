ghost use Rattle.std.specs.Prelude.{◌≡◌, ◌≢◌, ℕ, ◌+◌, ◌≤◌, List, [], Some, None, Ok, Err, length, nat_le, IsTrue};
ghost use Rattle.std.specs.Prelude.{IsOk, IfOk, if◌then◌else◌};
ghost use Rattle.definitions.specs.Disk.{HasRisen};
ghost use Rattle.definitions.specs.Streams.{IsUsedUp};
ghost use Rattle.definitions.specs.Zones.{top};
ghost use Rattle.plain_machine.specs.Machine.{Fits};
ghost use Rattle.dump_file.specs.Dump.{IsReadToFault, body_fault, dump_of, head_fault};
ghost use Rattle.dump_file.specs.Fields.{contents};
ghost use Rattle.dump_file.specs.Reading.{IsRead, IsReadTo};

use crate::dump::{DumpFault, DumpKind, DumpStop};
use crate::fill::fault;
use crate::header::{Header, read_header};
use crate::records::{RECORD, read_records};
use byte_streams::{Source, fill};
use frame_arena::Frames;
use machine::{Dump, tables_fit};
use std::alloc::Global;

/// Reads a dump to its end, or reports its first fault.
pub fn read_dump<S: Source>(alloc: Global, source: &mut S) -> Result<Dump, DumpStop>
    ensures dump { IfOk result (λ d. (bytes : List ℕ) → S.remaining source.old ≡ Some bytes →
        dump_of bytes ≡ Ok (record { hw = d.hw; memory = d.frames })) }
    ensures end { IsOk result → IsUsedUp (S.remaining source.new) }
    ensures fault { (bytes : List ℕ) (f : DumpFault) → S.remaining source.old ≡ Some bytes →
        result ≡ Err (DumpStop.Fault f) → dump_of bytes ≡ Err f }
    ensures read { (bytes : List ℕ) (f : DumpFault) → S.remaining source.old ≡ Some bytes →
        result ≡ Err (DumpStop.Fault f) → IsReadToFault bytes f (S.remaining source.new) }
    ensures fits { IfOk result (λ d. Fits d.hw d.frames) }
    ensures no_region { IfOk result (λ d. d.hw.regions ≡ []) }
    ensures memory { (bytes : List ℕ) → S.remaining source.old ≡ Some bytes → result ≡ Err DumpStop.NoMemory →
        head_fault bytes ≡ None }
    ensures counted { S.faults source.old ≤ S.faults source.new }
    ensures cause { result ≡ Err DumpStop.SourceFault → HasRisen (S.faults source.old) (S.faults source.new) }
{
    let header = read_header(source)?;
    let Ok(mut frames) = Frames::create(alloc, header.hw.zones().top()) else {
        return Err(DumpStop::NoMemory);
    };
    read_body(source, &header, &mut frames)?;
    Ok(Dump {
        hw: header.hw,
        frames,
    })
}

/// Reads the records into page frames of zeros, up to the end of the input.
fn read_body<S: Source>(
    source: &mut S,
    header: &Header,
    frames: &mut Frames,
) -> Result<(), DumpStop>
    requires size { length frames.old ≡ top header.now.hw.zones }
    requires early { header.now.first ≤ 1332 }
    ensures read { (bytes : List ℕ) → IsReadTo bytes header.now.first (S.remaining source.old) →
        frames.old ≡ contents bytes header.now.first 0 (top header.now.hw.zones) →
        IsRead bytes (body_fault header.now.hw bytes header.now.first header.now.count) (length bytes) result
        (S.remaining source.new) }
    ensures frames { (bytes : List ℕ) → IsReadTo bytes header.now.first (S.remaining source.old) →
        frames.old ≡ contents bytes header.now.first 0 (top header.now.hw.zones) → IsOk result →
        frames.new ≡ contents bytes header.now.first header.now.count (top header.now.hw.zones) }
    ensures end { IsOk result → IsUsedUp (S.remaining source.new) }
    ensures fits { IsOk result → Fits header.now.hw frames.new }
    ensures counted { S.faults source.old ≤ S.faults source.new }
    ensures cause { result ≡ Err DumpStop.SourceFault → HasRisen (S.faults source.old) (S.faults source.new) }
    ensures memory { result ≢ Err DumpStop.NoMemory }
{
    let first = header.first;
    read_records(source, header.hw.zones(), first, header.count, frames)?;
    if !is_over(source)? {
        return Err(fault(DumpKind::Extra, first + RECORD * u64::from(header.count)));
    }
    match tables_fit(frames, &header.hw) {
        Ok(()) => Ok(()),
        Err(f) => Err(fault(DumpKind::Tables, u64::from(f))),
    }
}

/// Returns whether no byte is left. Takes a byte if there is one.
fn is_over<S: Source>(source: &mut S) -> Result<bool, DumpStop>
    ensures over { IfOk result (λ over. IsTrue over → IsUsedUp (S.remaining source.new)) }
    ensures at { IfOk result (λ over. (bytes : List ℕ) (k : ℕ) → IsReadTo bytes k (S.remaining source.old) →
        over ≡ nat_le (length bytes) k) }
    ensures left { IfOk result (λ over. (bytes : List ℕ) (k : ℕ) → IsReadTo bytes k (S.remaining source.old) →
        IsReadTo bytes (if over then k else k + 1) (S.remaining source.new)) }
    ensures no_fault { (f : DumpFault) → result ≢ Err (DumpStop.Fault f) }
    ensures memory { result ≢ Err DumpStop.NoMemory }
    ensures counted { S.faults source.old ≤ S.faults source.new }
    ensures cause { result ≡ Err DumpStop.SourceFault → HasRisen (S.faults source.old) (S.faults source.new) }
{
    let mut byte = [0];
    match fill(source, &mut byte) {
        Ok(count) => Ok(count == 0),
        Err(_) => Err(DumpStop::SourceFault),
    }
}
