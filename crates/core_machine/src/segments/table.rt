ghost use Rattle.std.specs.Prelude.{◌≡◌, ◌+◌, ◌*◌, ◌^◌, ◌≤◌, ◌<◌, ℕ, List, ◌++◌, ◌∷◌, [], length, IfErr, IfOk, OnOk};
ghost use Rattle.definitions.specs.Bytes.{bytes_at};
ghost use Rattle.definitions.specs.Disk.{HasRisen};
ghost use Rattle.core_machine.specs.Faults.{wanted};
ghost use Rattle.core_machine.specs.Heads.{entries, entry_at, entry_of, is_load, loads_of};
ghost use Rattle.core_machine.specs.Reading.{IsReadTo, Stops};
ghost use Rattle.core_machine.specs.declared.segments.fault.Stop.TheVariants as stop;

use crate::segments::fault::Stop;
use crate::segments::file_header::PROGRAM_HEADER;
use crate::segments::filling::take_exact;
use crate::segments::numbers::{word, xword};
use crate::segments::segment::Segment;
use byte_streams::Source;
use page_core::NoMemory;
use std::alloc::Global;

/// `PT_LOAD`.
const PT_LOAD: u32 = 1;

/// What a program header says.
#[derive(Clone, Copy, Debug, PartialEq, Eq)]
pub(crate) struct ProgramHeader {
    /// `p_type`.
    pub(crate) kind: u32,
    pub(crate) segment: Segment,
}

/// Reads the given number of program headers from a place on.
pub(crate) fn read_table<S: Source>(
    alloc: Global,
    source: &mut S,
    place: u64,
    count: u16,
) -> Result<Vec<ProgramHeader>, Stop>
    requires { place ≤ 2 ^ 48 }
    ensures stopped { IfErr result (λ why. (bytes : List ℕ) → IsReadTo bytes place (S.remaining source.old) →
        Stops (wanted bytes (place + 56 * count)) why) }
    ensures whole { OnOk result ((bytes : List ℕ) → IsReadTo bytes place (S.remaining source.old) →
        place + 56 * count ≤ length bytes) }
    ensures table { IfOk result (λ table. (bytes : List ℕ) → IsReadTo bytes place (S.remaining source.old) →
        table.items ≡ entries bytes place count) }
    ensures left { OnOk result ((bytes : List ℕ) → IsReadTo bytes place (S.remaining source.old) →
        IsReadTo bytes (place + 56 * count) (S.remaining source.new)) }
    ensures counted { S.faults source.old ≤ S.faults source.new }
    ensures cause { IfErr result (λ why. why ≡ stop.Source → HasRisen (S.faults source.old) (S.faults source.new)) }
{
    let mut table = Vec::new(alloc);
    for i in 0..count {
        let entry = read_entry(source, place + 56 * u64::from(i))?;
        push_entry(&mut table, entry)?;
    }
    Ok(table)
}

/// Reads the program header at a place.
fn read_entry<S: Source>(source: &mut S, at: u64) -> Result<ProgramHeader, Stop>
    requires { at ≤ 2 ^ 60 }
    ensures stopped { IfErr result (λ why. (bytes : List ℕ) → IsReadTo bytes at (S.remaining source.old) →
        Stops (wanted bytes (at + 56)) why) }
    ensures entry { IfOk result (λ entry. (bytes : List ℕ) → IsReadTo bytes at (S.remaining source.old) →
        entry ≡ entry_of (bytes_at 56 bytes at)) }
    ensures left { OnOk result ((bytes : List ℕ) → IsReadTo bytes at (S.remaining source.old) →
        IsReadTo bytes (at + 56) (S.remaining source.new)) }
    ensures counted { S.faults source.old ≤ S.faults source.new }
    ensures cause { IfErr result (λ why. why ≡ stop.Source → HasRisen (S.faults source.old) (S.faults source.new)) }
{
    let mut bytes = [0; PROGRAM_HEADER];
    take_exact(source, &mut bytes, at)?;
    Ok(entry_of(&bytes))
}

/// Parses the bytes of a program header.
#[tactic(auto, unfolding(crate::specs::Heads::entry_of))]
fn entry_of(bytes: &[u8]) -> ProgramHeader
    requires { length bytes.now ≡ 56 }
    ensures { result ≡ entry_of bytes.now }
{
    ProgramHeader {
        kind: word(bytes, 0),
        segment: Segment {
            offset: xword(bytes, 8),
            address: xword(bytes, 24),
            file_size: xword(bytes, 32),
            memory_size: xword(bytes, 40),
        },
    }
}

fn push_entry(table: &mut Vec<ProgramHeader>, entry: ProgramHeader) -> Result<(), NoMemory>
    ensures { OnOk result (table.new.items ≡ table.old.items ++ entry ∷ []) }
{
    table.push(entry).map_err(|_| NoMemory)
}

/// Returns the segments of a table that have memory.
pub(crate) fn loads_of(alloc: Global, table: &[ProgramHeader]) -> Result<Vec<Segment>, NoMemory>
    ensures { IfOk result (λ loads. loads.items ≡ loads_of table.now) }
{
    let mut loads = Vec::new(alloc);
    for entry in table {
        if is_load(entry) {
            push_segment(&mut loads, entry.segment)?;
        }
    }
    Ok(loads)
}

/// Returns whether a program header is that of a segment that isn't empty.
fn is_load(entry: &ProgramHeader) -> bool
    ensures { result ≡ is_load entry.now }
{
    entry.kind == PT_LOAD && (entry.segment.file_size != 0 || entry.segment.memory_size != 0)
}

pub(crate) fn push_segment(segments: &mut Vec<Segment>, segment: Segment) -> Result<(), NoMemory>
    ensures { OnOk result (segments.new.items ≡ segments.old.items ++ segment ∷ []) }
{
    segments.push(segment).map_err(|_| NoMemory)
}
