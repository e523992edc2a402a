ghost use Rattle.std.specs.Prelude.{◌≡◌, ◌+◌, ◌^◌, ◌≤◌, ◌<◌, ℕ, List, ◌++◌, replicate, length, None};
ghost use Rattle.std.specs.Prelude.{IfErr, IfOk, IfSome, OnOk};
ghost use Rattle.std.specs.List.{find};
ghost use Rattle.definitions.specs.Bytes.{bytes_at};
ghost use Rattle.definitions.specs.Disk.{HasRisen};
ghost use Rattle.definitions.specs.InfoPage.{names_of};
ghost use Rattle.core_machine.specs.Faults.{wanted};
ghost use Rattle.core_machine.specs.Notes.{filled, foreign_ident, ident_by, ident_with, is_note, is_own};
ghost use Rattle.core_machine.specs.Notes.{name_of_machine, note_between, note_end, note_fault, told_ident};
ghost use Rattle.core_machine.specs.Reading.{IsReadTo, Stops};
ghost use Rattle.core_machine.specs.Segments.{first_place};
ghost use Rattle.core_machine.specs.declared.segments.fault.Stop.TheVariants as stop;

use crate::segments::fault::Stop;
use crate::segments::filling::{skip, take_exact};
use crate::segments::numbers::word;
use crate::segments::table::ProgramHeader;
use byte_streams::Source;
use definitions::Ident;
use elf_core::machines::{AARCH64, ARM, I386, LOONGARCH, PPC64, RISCV, S390, X86_64};

/// `PT_NOTE`.
const PT_NOTE: u32 = 4;

/// The size of the note, with its name and its descriptor.
const NOTE: usize = 420;

/// The beginning of the note: the sizes of its name and its descriptor, its type, and the name, filled to 12 bytes.
const NOTE_HEAD: [u8; 24] = *b"\x09\0\0\0\x8c\x01\0\0\x01\0\0\0DIRUKOFE\0\0\0\0";

/// The place at which reading continues, and the identity that was found.
#[derive(Clone, Copy)]
pub(crate) struct Told {
    pub(crate) ident: Ident,
    pub(crate) place: u64,
}

/// Reads the note of an identity, if there is one, and returns that identity, or else one made from the machine's
/// number.
pub(crate) fn read_ident<S: Source>(
    source: &mut S,
    place: u64,
    machine: u16,
    note: Option<ProgramHeader>,
) -> Result<Told, Stop>
    requires after { IfSome note (λ entry. place ≤ entry.segment.offset) }
    requires early { IfSome note (λ entry. entry.segment.offset ≤ 2 ^ 48) }
    ensures stopped { IfErr result (λ why. (bytes : List ℕ) → IsReadTo bytes place (S.remaining source.old) →
        Stops (note_fault bytes note) why) }
    ensures whole { OnOk result ((bytes : List ℕ) → IsReadTo bytes place (S.remaining source.old) →
        note_fault bytes note ≡ None) }
    ensures ident { IfOk result (λ told. (bytes : List ℕ) → IsReadTo bytes place (S.remaining source.old) →
        told.ident ≡ ident_with bytes machine note) }
    ensures place { IfOk result (λ told. told.place ≡ note_end place note) }
    ensures left { IfOk result (λ told. (bytes : List ℕ) → IsReadTo bytes place (S.remaining source.old) →
        IsReadTo bytes told.place (S.remaining source.new)) }
    ensures counted { S.faults source.old ≤ S.faults source.new }
    ensures cause { IfErr result (λ why. why ≡ stop.Source → HasRisen (S.faults source.old) (S.faults source.new)) }
{
    match note {
        None => Ok(Told {
            ident: foreign_ident(machine),
            place,
        }),
        Some(entry) => {
            let offset = entry.segment.offset;
            let ident = read_note(source, place, offset, machine)?;
            Ok(Told {
                ident,
                place: offset + NOTE as u64,
            })
        }
    }
}

/// Reads the note at a place.
fn read_note<S: Source>(
    source: &mut S,
    place: u64,
    offset: u64,
    machine: u16,
) -> Result<Ident, Stop>
    requires after { place ≤ offset }
    requires early { offset ≤ 2 ^ 48 }
    ensures stopped { IfErr result (λ why. (bytes : List ℕ) → IsReadTo bytes place (S.remaining source.old) →
        Stops (wanted bytes (offset + 420)) why) }
    ensures whole { OnOk result ((bytes : List ℕ) → IsReadTo bytes place (S.remaining source.old) →
        offset + 420 ≤ length bytes) }
    ensures ident { IfOk result (λ ident. (bytes : List ℕ) → IsReadTo bytes place (S.remaining source.old) →
        ident ≡ ident_by machine (bytes_at 420 bytes offset)) }
    ensures left { OnOk result ((bytes : List ℕ) → IsReadTo bytes place (S.remaining source.old) →
        IsReadTo bytes (offset + 420) (S.remaining source.new)) }
    ensures counted { S.faults source.old ≤ S.faults source.new }
    ensures cause { IfErr result (λ why. why ≡ stop.Source → HasRisen (S.faults source.old) (S.faults source.new)) }
{
    let mut note = [0; NOTE];
    skip(source, place, offset)?;
    take_exact(source, &mut note, offset)?;
    Ok(ident_by(machine, &note))
}

/// Returns the identity of a note, or else that of a machine.
#[tactic(auto, unfolding(crate::specs::Notes::ident_by))]
fn ident_by(machine: u16, note: &[u8]) -> Ident
    requires { length note.now ≡ 420 }
    ensures { result ≡ ident_by machine note.now }
{
    if is_own(note) {
        told_ident(&note[24..])
    } else {
        foreign_ident(machine)
    }
}

/// Returns whether a note begins as one of an identity does.
#[tactic(auto, unfolding(elf_core::specs::Elf::note_bytes))]
fn is_own(note: &[u8]) -> bool
    ensures { result ≡ is_own note.now }
{
    note.starts_with(&NOTE_HEAD)
}

/// Returns the identity stored in 396 bytes.
#[tactic(auto, unfolding(crate::specs::Notes::told_ident))]
fn told_ident(bytes: &[u8]) -> Ident
    requires { length bytes.now ≡ 396 }
    ensures { result ≡ told_ident bytes.now }
{
    Ident {
        version_code: word(bytes, 392),
        names: names_of(bytes),
    }
}

/// Returns six names of 65 bytes each.
fn names_of(bytes: &[u8]) -> [[u8; 65]; 6]
    requires { 390 ≤ length bytes.now }
    ensures { result ≡ names_of bytes.now }
{
    let mut names = [[0; 65]; 6];
    let (chunks, _) = bytes.as_chunks::<65>();
    names.copy_from_slice(&chunks[..6]);
    names
}

/// Returns the identity of a machine of which only the number is known.
#[tactic(auto, unfolding(crate::specs::Notes::foreign_ident))]
fn foreign_ident(machine: u16) -> Ident
    ensures { result ≡ foreign_ident machine }
{
    let none = [0; 65];
    Ident {
        version_code: 0,
        names: [
            filled(b"Linux"),
            none,
            none,
            none,
            filled(name_of_machine(machine)),
            none,
        ],
    }
}

/// Returns a name filled to 65 bytes.
fn filled(name: &[u8]) -> [u8; 65]
    requires { length name.now ≤ 65 }
    ensures { result ≡ filled name.now }
{
    let mut bytes = [0; 65];
    bytes[..name.len()].copy_from_slice(name);
    bytes
}

/// Returns Linux' name of a machine, given its number.
fn name_of_machine(machine: u16) -> &'static [u8]
    ensures name { result.now ≡ name_of_machine machine }
    ensures short { length result.now ≤ 65 }
{
    if machine == X86_64 {
        b"x86_64"
    } else if machine == AARCH64 {
        b"aarch64"
    } else if machine == I386 {
        b"i686"
    } else if machine == RISCV {
        b"riscv64"
    } else if machine == PPC64 {
        b"ppc64le"
    } else if machine == S390 {
        b"s390x"
    } else if machine == LOONGARCH {
        b"loongarch64"
    } else if machine == ARM {
        b"arm"
    } else {
        b""
    }
}

/// Returns the first note that lies between two places and has the size of one of an identity.
pub(crate) fn note_between(table: &[ProgramHeader], from: u64, to: u64) -> Option<ProgramHeader>
    ensures { result ≡ find (is_note from to) table.now }
{
    table.iter().copied().find(|entry| is_note(from, to, entry))
}

fn is_note(from: u64, to: u64, entry: &ProgramHeader) -> bool
    ensures { result ≡ is_note from to entry.now }
{
    let offset = entry.segment.offset;
    entry.kind == PT_NOTE
        && entry.segment.file_size == NOTE as u64
        && from <= offset
        && u128::from(offset) + NOTE as u128 <= u128::from(to)
}
