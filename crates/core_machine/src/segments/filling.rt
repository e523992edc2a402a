ghost use Rattle.std.specs.Prelude.{◌≡◌, ◌+◌, ◌^◌, ◌≤◌, ◌<◌, ℕ, List, length, None, IfErr, OnOk};
ghost use Rattle.definitions.specs.Bytes.{bytes_at};
ghost use Rattle.definitions.specs.Disk.{HasRisen};
ghost use Rattle.core_machine.specs.Faults.{wanted};
ghost use Rattle.core_machine.specs.Reading.{IsReadTo, Stops};
ghost use Rattle.core_machine.specs.declared.segments.fault.Stop.TheVariants as stop;

use crate::segments::fault::{Fault, Stop};
use byte_streams::{Source, fill};

/// How many bytes are passed over at once.
const CHUNK: usize = 4096;

/// Fills `piece` with the bytes from place `at` on.
pub(crate) fn take_exact<S: Source>(source: &mut S, piece: &mut [u8], at: u64) -> Result<(), Stop>
    requires early { at ≤ 2 ^ 60 }
    requires small { length piece.old ≤ 4096 }
    ensures stopped { IfErr result (λ why. (bytes : List ℕ) → IsReadTo bytes at (S.remaining source.old) →
        Stops (wanted bytes (at + length piece.old)) why) }
    ensures whole { OnOk result ((bytes : List ℕ) → IsReadTo bytes at (S.remaining source.old) →
        at + length piece.old ≤ length bytes) }
    ensures piece { OnOk result ((bytes : List ℕ) → IsReadTo bytes at (S.remaining source.old) →
        piece.new ≡ bytes_at (length piece.old) bytes at) }
    ensures left { OnOk result ((bytes : List ℕ) → IsReadTo bytes at (S.remaining source.old) →
        IsReadTo bytes (at + length piece.old) (S.remaining source.new)) }
    ensures size { length piece.new ≡ length piece.old }
    ensures counted { S.faults source.old ≤ S.faults source.new }
    ensures cause { IfErr result (λ why. why ≡ stop.Source → HasRisen (S.faults source.old) (S.faults source.new)) }
{
    match fill(source, piece) {
        Ok(count) if count == piece.len() => Ok(()),
        Ok(count) => Err(Stop::Fault(Fault::Short {
            at: at + count as u64,
        })),
        Err(_) => Err(Stop::Source),
    }
}

/// Passes over the bytes from place `from` up to place `to`.
pub(crate) fn skip<S: Source>(source: &mut S, from: u64, to: u64) -> Result<(), Stop>
    requires order { from ≤ to }
    requires early { to ≤ 2 ^ 60 }
    ensures stopped { IfErr result (λ why. (bytes : List ℕ) → IsReadTo bytes from (S.remaining source.old) →
        Stops (wanted bytes to) why) }
    ensures left { OnOk result ((bytes : List ℕ) → IsReadTo bytes from (S.remaining source.old) →
        IsReadTo bytes to (S.remaining source.new)) }
    ensures counted { S.faults source.old ≤ S.faults source.new }
    ensures cause { IfErr result (λ why. why ≡ stop.Source → HasRisen (S.faults source.old) (S.faults source.new)) }
{
    let mut at = from;
    while at < to {
        let count = (to - at).min(CHUNK as u64) as usize;
        skip_some(source, at, count)?;
        at += count as u64;
    }
    Ok(())
}

/// Passes over some bytes from a place on.
fn skip_some<S: Source>(source: &mut S, at: u64, count: usize) -> Result<(), Stop>
    requires early { at ≤ 2 ^ 60 }
    requires few { count ≤ 4096 }
    ensures stopped { IfErr result (λ why. (bytes : List ℕ) → IsReadTo bytes at (S.remaining source.old) →
        Stops (wanted bytes (at + count)) why) }
    ensures left { OnOk result ((bytes : List ℕ) → IsReadTo bytes at (S.remaining source.old) →
        IsReadTo bytes (at + count) (S.remaining source.new)) }
    ensures counted { S.faults source.old ≤ S.faults source.new }
    ensures cause { IfErr result (λ why. why ≡ stop.Source → HasRisen (S.faults source.old) (S.faults source.new)) }
{
    let mut scratch = [0; CHUNK];
    take_exact(source, &mut scratch[..count], at)
}
