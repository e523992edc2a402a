ghost use Rattle.std.specs.Prelude.{◌≡◌, ◌+◌, ◌^◌, ◌≤◌, ℕ, List, length, Err, IsOk, IfOk};
ghost use Rattle.definitions.specs.Bytes.{bytes_at};
ghost use Rattle.definitions.specs.Disk.{HasRisen};
ghost use Rattle.dump_file.specs.Dump.{wanted};
ghost use Rattle.dump_file.specs.Fields.{number};
ghost use Rattle.dump_file.specs.Reading.{IsRead, IsReadTo};

use crate::dump::{DumpFault, DumpKind, DumpStop};
use byte_streams::{Source, fill};
use byteorder::{ByteOrder, LittleEndian};

/// Fills a piece with the bytes from byte `at` on.
pub(crate) fn take_exact<S: Source>(
    source: &mut S,
    piece: &mut [u8],
    at: u64,
) -> Result<(), DumpStop>
    requires early { at ≤ 2 ^ 48 }
    requires small { length piece.old ≤ 4096 }
    ensures read { (bytes : List ℕ) → IsReadTo bytes at (S.remaining source.old) →
        IsRead bytes (wanted bytes (at + length piece.old)) (at + length piece.old) result (S.remaining source.new) }
    ensures piece { (bytes : List ℕ) → IsReadTo bytes at (S.remaining source.old) → IsOk result →
        piece.new ≡ bytes_at (length piece.old) bytes at }
    ensures counted { S.faults source.old ≤ S.faults source.new }
    ensures cause { result ≡ Err DumpStop.SourceFault → HasRisen (S.faults source.old) (S.faults source.new) }
    ensures memory { result ≡ Err DumpStop.NoMemory → ⊥ }
{
    match fill(source, piece) {
        Ok(count) if count == piece.len() => Ok(()),
        Ok(count) => Err(fault(DumpKind::Short, at + count as u64)),
        Err(_) => Err(DumpStop::SourceFault),
    }
}

/// Reads the number at byte `at`.
pub(crate) fn read_number<S: Source>(source: &mut S, at: u64) -> Result<u32, DumpStop>
    requires { at ≤ 2 ^ 48 }
    ensures read { (bytes : List ℕ) → IsReadTo bytes at (S.remaining source.old) →
        IsRead bytes (wanted bytes (at + 4)) (at + 4) result (S.remaining source.new) }
    ensures number { IfOk result (λ n. (bytes : List ℕ) → IsReadTo bytes at (S.remaining source.old) →
        n ≡ number bytes at) }
    ensures counted { S.faults source.old ≤ S.faults source.new }
    ensures cause { result ≡ Err DumpStop.SourceFault → HasRisen (S.faults source.old) (S.faults source.new) }
    ensures memory { result ≡ Err DumpStop.NoMemory → ⊥ }
{
    let mut number = [0; 4];
    take_exact(source, &mut number, at)?;
    Ok(LittleEndian::read_u32(&number))
}

/// Reads the two numbers from byte `at` on.
pub(crate) fn read_pair<S: Source>(source: &mut S, at: u64) -> Result<(u32, u32), DumpStop>
    requires { at ≤ 2 ^ 48 }
    ensures read { (bytes : List ℕ) → IsReadTo bytes at (S.remaining source.old) →
        IsRead bytes (wanted bytes (at + 8)) (at + 8) result (S.remaining source.new) }
    ensures pair { IfOk result (λ pair. (bytes : List ℕ) → IsReadTo bytes at (S.remaining source.old) →
        pair ≡ (number bytes at, number bytes (at + 4))) }
    ensures counted { S.faults source.old ≤ S.faults source.new }
    ensures cause { result ≡ Err DumpStop.SourceFault → HasRisen (S.faults source.old) (S.faults source.new) }
    ensures memory { result ≡ Err DumpStop.NoMemory → ⊥ }
{
    let mut piece = [0; 8];
    take_exact(source, &mut piece, at)?;
    Ok((number(&piece, 0), number(&piece, 4)))
}

/// Reads the three numbers from byte `at` on.
pub(crate) fn read_triple<S: Source>(source: &mut S, at: u64) -> Result<(u32, u32, u32), DumpStop>
    requires { at ≤ 2 ^ 48 }
    ensures read { (bytes : List ℕ) → IsReadTo bytes at (S.remaining source.old) →
        IsRead bytes (wanted bytes (at + 12)) (at + 12) result (S.remaining source.new) }
    ensures triple { IfOk result (λ triple. (bytes : List ℕ) → IsReadTo bytes at (S.remaining source.old) →
        triple ≡ (number bytes at, number bytes (at + 4), number bytes (at + 8))) }
    ensures counted { S.faults source.old ≤ S.faults source.new }
    ensures cause { result ≡ Err DumpStop.SourceFault → HasRisen (S.faults source.old) (S.faults source.new) }
    ensures memory { result ≡ Err DumpStop.NoMemory → ⊥ }
{
    let mut piece = [0; 12];
    take_exact(source, &mut piece, at)?;
    Ok((number(&piece, 0), number(&piece, 4), number(&piece, 8)))
}

/// Returns the number at byte `at`.
#[tactic(auto, unfolding(definitions::specs::Bytes::number_at))]
fn number(bytes: &[u8], at: usize) -> u32
    requires { at + 4 ≤ length bytes.now }
    ensures { result ≡ number bytes.now at }
{
    LittleEndian::read_u32(&bytes[at..])
}

/// Returns the stop at a fault, with its place.
pub(crate) fn fault(kind: DumpKind, at: u64) -> DumpStop
    ensures { result ≡ DumpStop.Fault (record { kind = kind; at = at }) }
{
    DumpStop::Fault(DumpFault { kind, at })
}
