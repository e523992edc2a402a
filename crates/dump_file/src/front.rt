ghost use Rattle.std.specs.Prelude.{◌≡◌, ℕ, ◌≤◌, ◌&&◌, ◌||◌, nat_le, List, length, Err, IsTrue, IfOk};
ghost use Rattle.definitions.specs.Disk.{HasRisen};
ghost use Rattle.definitions.specs.InfoPage.{names_of};
ghost use Rattle.dump_file.specs.Dump.{front_fault, wanted};
ghost use Rattle.dump_file.specs.Fields.{ident, is_first, is_second, number, slots, zone_count};
ghost use Rattle.dump_file.specs.Reading.{IsRead, IsReadTo, front_of, mark_fault, slots_fault, zone_count_fault};

use crate::dump::{DumpKind, DumpStop};
use crate::fill::{fault, read_pair, take_exact};
use byte_streams::Source;
use definitions::Ident;

/// What a dump says before its zones.
#[derive(Clone, Copy)]
pub(crate) struct Front {
    /// Whether it has the mark of version 2.
    pub(crate) is_second: bool,
    pub(crate) ident: Ident,
    pub(crate) slots: u32,
    pub(crate) frame_table: u32,
    pub(crate) slot_table: u32,
    pub(crate) hw_sig: u32,
    pub(crate) zone_count: u32,
}

/// Reads what stands before the zones.
pub(crate) fn read_front<S: Source>(source: &mut S) -> Result<Front, DumpStop>
    ensures read { (bytes : List ℕ) → IsReadTo bytes 0 (S.remaining source.old) →
        IsRead bytes (front_fault bytes) 424 result (S.remaining source.new) }
    ensures front { IfOk result (λ front. (bytes : List ℕ) → IsReadTo bytes 0 (S.remaining source.old) →
        front ≡ front_of bytes) }
    ensures slots { IfOk result (λ front. (2 ≤ front.slots) × (front.slots ≤ 131072)) }
    ensures zones { IfOk result (λ front. (1 ≤ front.zone_count) × (front.zone_count ≤ 16)) }
    ensures counted { S.faults source.old ≤ S.faults source.new }
    ensures cause { result ≡ Err DumpStop.SourceFault → HasRisen (S.faults source.old) (S.faults source.new) }
    ensures memory { result ≡ Err DumpStop.NoMemory → ⊥ }
{
    let is_second = read_mark(source)?;
    let (version_code, slots) = read_slots(source)?;
    let (frame_table, slot_table) = read_pair(source, 16)?;
    let (hw_sig, zone_count) = read_zone_count(source)?;
    let names = read_names(source)?;
    Ok(Front {
        is_second,
        ident: Ident {
            version_code,
            names,
        },
        slots,
        frame_table,
        slot_table,
        hw_sig,
        zone_count,
    })
}

/// Reads the mark. Returns whether it is that of version 2.
fn read_mark<S: Source>(source: &mut S) -> Result<bool, DumpStop>
    ensures read { (bytes : List ℕ) → IsReadTo bytes 0 (S.remaining source.old) →
        IsRead bytes (mark_fault bytes) 8 result (S.remaining source.new) }
    ensures second { IfOk result (λ second. (bytes : List ℕ) → IsReadTo bytes 0 (S.remaining source.old) →
        second ≡ is_second bytes) }
    ensures counted { S.faults source.old ≤ S.faults source.new }
    ensures cause { result ≡ Err DumpStop.SourceFault → HasRisen (S.faults source.old) (S.faults source.new) }
    ensures memory { result ≡ Err DumpStop.NoMemory → ⊥ }
{
    let mut mark = [0; 8];
    take_exact(source, &mut mark, 0)?;
    if !is_mark(&mark) {
        return Err(fault(DumpKind::Magic, 0));
    }
    Ok(is_second(&mark))
}

/// Returns whether the bytes begin with the mark of a version.
fn is_mark(bytes: &[u8]) -> bool
    ensures { result ≡ (is_first bytes.now || is_second bytes.now) }
{
    bytes.starts_with(b"SWSUDMP1") || is_second(bytes)
}

/// Returns whether the bytes begin with the mark of version 2.
fn is_second(bytes: &[u8]) -> bool
    ensures { result ≡ is_second bytes.now }
{
    bytes.starts_with(b"SWSUDMP2")
}

/// Reads the version code and the number of slots.
fn read_slots<S: Source>(source: &mut S) -> Result<(u32, u32), DumpStop>
    ensures read { (bytes : List ℕ) → IsReadTo bytes 8 (S.remaining source.old) →
        IsRead bytes (slots_fault bytes) 16 result (S.remaining source.new) }
    ensures pair { IfOk result (λ pair. (bytes : List ℕ) → IsReadTo bytes 8 (S.remaining source.old) →
        pair ≡ (number bytes 8, slots bytes)) }
    ensures bounds { IfOk result (λ pair. (2 ≤ pair.1) × (pair.1 ≤ 131072)) }
    ensures counted { S.faults source.old ≤ S.faults source.new }
    ensures cause { result ≡ Err DumpStop.SourceFault → HasRisen (S.faults source.old) (S.faults source.new) }
    ensures memory { result ≡ Err DumpStop.NoMemory → ⊥ }
{
    let pair = read_pair(source, 8)?;
    if !is_slot_count(pair.1) {
        return Err(fault(DumpKind::Header, 12));
    }
    Ok(pair)
}

/// Returns whether a dump may have this number of slots: 2 to 131,072.
fn is_slot_count(count: u32) -> bool
    ensures is { result ≡ (nat_le 2 count && nat_le count 131072) }
    ensures bounds { IsTrue result → (2 ≤ count) × (count ≤ 131072) }
{
    2 <= count && count <= 131072
}

/// Reads the hardware signature and the number of zones.
fn read_zone_count<S: Source>(source: &mut S) -> Result<(u32, u32), DumpStop>
    ensures read { (bytes : List ℕ) → IsReadTo bytes 24 (S.remaining source.old) →
        IsRead bytes (zone_count_fault bytes) 32 result (S.remaining source.new) }
    ensures pair { IfOk result (λ pair. (bytes : List ℕ) → IsReadTo bytes 24 (S.remaining source.old) →
        pair ≡ (number bytes 24, zone_count bytes)) }
    ensures bounds { IfOk result (λ pair. (1 ≤ pair.1) × (pair.1 ≤ 16)) }
    ensures counted { S.faults source.old ≤ S.faults source.new }
    ensures cause { result ≡ Err DumpStop.SourceFault → HasRisen (S.faults source.old) (S.faults source.new) }
    ensures memory { result ≡ Err DumpStop.NoMemory → ⊥ }
{
    let pair = read_pair(source, 24)?;
    if !is_zone_count(pair.1) {
        return Err(fault(DumpKind::Zone, 28));
    }
    Ok(pair)
}

/// Returns whether a dump may have this number of zones: 1 to 16.
fn is_zone_count(count: u32) -> bool
    ensures is { result ≡ (nat_le 1 count && nat_le count 16) }
    ensures bounds { IsTrue result → (1 ≤ count) × (count ≤ 16) }
{
    1 <= count && count <= 16
}

/// Reads the six names, and the two bytes after them.
fn read_names<S: Source>(source: &mut S) -> Result<[[u8; 65]; 6], DumpStop>
    ensures read { (bytes : List ℕ) → IsReadTo bytes 32 (S.remaining source.old) →
        IsRead bytes (wanted bytes 424) 424 result (S.remaining source.new) }
    ensures names { IfOk result (λ names. (bytes : List ℕ) → IsReadTo bytes 32 (S.remaining source.old) →
        names ≡ (ident bytes).names) }
    ensures counted { S.faults source.old ≤ S.faults source.new }
    ensures cause { result ≡ Err DumpStop.SourceFault → HasRisen (S.faults source.old) (S.faults source.new) }
    ensures memory { result ≡ Err DumpStop.NoMemory → ⊥ }
{
    let mut piece = [0; 392];
    take_exact(source, &mut piece, 32)?;
    Ok(names_of(&piece))
}

/// Returns six names of 65 bytes each.
fn names_of(bytes: &[u8]) -> [[u8; 65]; 6]
    requires { 390 ≤ length bytes.now }
    ensures { result ≡ names_of bytes.now }
{
    let mut names = [[0; 65]; 6];
    let (chunks, _) = bytes.as_chunks::<65>();
    names.copy_from_slice(&chunks[..6]);
    names
}
