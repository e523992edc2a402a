ghost use Rattle.std.specs.Prelude.{◌≡◌, ◌+◌, ◌^◌, ◌≤◌, ◌<◌, ℕ, List, Some, None, length, IfErr, IfOk, OnOk};
ghost use Rattle.definitions.specs.Bytes.{bytes_at};
ghost use Rattle.definitions.specs.Disk.{HasRisen};
ghost use Rattle.plain_machine.specs.Chain.{or_else};
ghost use Rattle.core_machine.specs.Faults.{wanted};
ghost use Rattle.core_machine.specs.Heads.{header_fault, header_in, machine_of, segments_in, table_end, table_fault};
ghost use Rattle.core_machine.specs.Heads.{entry_count, kept_fault, loads_of, table_in, table_place};
ghost use Rattle.core_machine.specs.Notes.{IsCore, head_fault, note_between};
ghost use Rattle.core_machine.specs.Reading.{IsReadTo, Stops};
ghost use Rattle.core_machine.specs.Segments.{kept};
ghost use Rattle.core_machine.specs.declared.segments.fault.Stop.TheVariants as stop;

use crate::segments::fault::Stop;
use crate::segments::file_header::{FILE_HEADER, FileHeader, file_header_of};
use crate::segments::filling::{skip, take_exact};
use crate::segments::identity::{note_between, read_ident};
use crate::segments::kept::kept_of;
use crate::segments::order::{check_kept, first_place};
use crate::segments::segment::Segment;
use crate::segments::table::{ProgramHeader, loads_of, read_table};
use byte_streams::Source;
use definitions::Ident;
use page_core::NoMemory;
use std::alloc::Global;

/// What a core file says before the bytes of its segments.
#[derive(Drop)]
pub struct Core {
    /// The identity in its note, or else only the name of the machine.
    pub ident: Ident,
    /// The segments that are kept. They ascend without sharing a page frame, and so do their bytes.
    pub segments: Vec<Segment>,
    /// How many bytes of the file were read.
    pub place: u64,
}

/// Reads what precedes the bytes of the segments. If there are several faults, the first one is returned.
pub fn open<S: Source>(alloc: Global, source: &mut S) -> Result<Core, Stop>
    ensures stopped { IfErr result (λ why. (bytes : List ℕ) → S.remaining source.old ≡ Some bytes →
        Stops (head_fault bytes) why) }
    ensures core { IfOk result (λ core. (bytes : List ℕ) → S.remaining source.old ≡ Some bytes → IsCore bytes core) }
    ensures follows { IfOk result (λ core. kept_fault core.place core.segments.items ≡ None) }
    ensures left { IfOk result (λ core. (bytes : List ℕ) → S.remaining source.old ≡ Some bytes →
        IsReadTo bytes core.place (S.remaining source.new)) }
    ensures counted { S.faults source.old ≤ S.faults source.new }
    ensures cause { IfErr result (λ why. why ≡ stop.Source → HasRisen (S.faults source.old) (S.faults source.new)) }
{
    let header = read_header(source)?;
    skip(source, FILE_HEADER as u64, header.place)?;
    let table = read_table(alloc, source, header.place, header.count)?;
    let place = header.place + 56 * u64::from(header.count);
    let segments = segments_of(alloc, &table)?;
    check_kept(&segments, place)?;
    let note = note_between(&table, place, first_place(&segments));
    let told = read_ident(source, place, header.machine, note)?;
    Ok(Core {
        ident: told.ident,
        segments,
        place: told.place,
    })
}

/// Reads the file header.
fn read_header<S: Source>(source: &mut S) -> Result<FileHeader, Stop>
    ensures stopped { IfErr result (λ why. (bytes : List ℕ) → S.remaining source.old ≡ Some bytes →
        Stops (or_else (wanted bytes 64) (header_fault (header_in bytes))) why) }
    ensures whole { OnOk result ((bytes : List ℕ) → S.remaining source.old ≡ Some bytes →
        or_else (wanted bytes 64) (header_fault (header_in bytes)) ≡ None) }
    ensures machine { IfOk result (λ header. (bytes : List ℕ) → S.remaining source.old ≡ Some bytes →
        header.machine ≡ machine_of (header_in bytes)) }
    ensures place { IfOk result (λ header. (bytes : List ℕ) → S.remaining source.old ≡ Some bytes →
        header.place ≡ table_place (header_in bytes)) }
    ensures count { IfOk result (λ header. (bytes : List ℕ) → S.remaining source.old ≡ Some bytes →
        header.count ≡ entry_count (header_in bytes)) }
    ensures few { IfOk result (λ header. header.count < 65535) }
    ensures after { IfOk result (λ header. 64 ≤ header.place) }
    ensures early { IfOk result (λ header. header.place ≤ 2 ^ 48) }
    ensures left { OnOk result ((bytes : List ℕ) → S.remaining source.old ≡ Some bytes →
        IsReadTo bytes 64 (S.remaining source.new)) }
    ensures counted { S.faults source.old ≤ S.faults source.new }
    ensures cause { IfErr result (λ why. why ≡ stop.Source → HasRisen (S.faults source.old) (S.faults source.new)) }
{
    let mut bytes = [0; FILE_HEADER];
    take_exact(source, &mut bytes, 0)?;
    Ok(file_header_of(&bytes)?)
}

/// Returns the segments of a table that are kept.
fn segments_of(alloc: Global, table: &[ProgramHeader]) -> Result<Vec<Segment>, NoMemory>
    ensures { IfOk result (λ segments. segments.items ≡ kept (loads_of table.now)) }
{
    let loads = loads_of(alloc, table)?;
    kept_of(alloc, &loads)
}
