ghost use Rattle.std.specs.Prelude.{◌≤◌, ◌<◌, length, IfOk, OnErr};
ghost use Rattle.definitions.specs.Disk.{HasRisen};
ghost use Rattle.definitions.specs.Streams.{HandsOut, IsUsedUp};

use crate::source::Source;
use page_core::Failed;

/// Reads until a piece is full or the input ends, and returns how many bytes were read.
pub fn fill<S: Source>(source: &mut S, piece: &mut [u8]) -> Result<usize, Failed>
    ensures count { IfOk result (λ k. k ≤ length piece.old) }
    ensures bytes { IfOk result (λ k. HandsOut k piece.new (S.remaining source.old) (S.remaining source.new)) }
    ensures end { IfOk result (λ k. k < length piece.old → IsUsedUp (S.remaining source.new)) }
    ensures counted { S.faults source.old ≤ S.faults source.new }
    ensures cause { OnErr result (HasRisen (S.faults source.old) (S.faults source.new)) }
{
    let mut at = 0;
    while at < piece.len() {
        let count = source.read(&mut piece[at..])?;
        if count == 0 {
            return Ok(at);
        }
        at += count;
    }
    Ok(at)
}
