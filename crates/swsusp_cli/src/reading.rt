ghost use Rattle.std.specs.Prelude.{◌≡◌, ◌≤◌, Err, IfOk};
ghost use Rattle.definitions.specs.Disk.{HasRisen};
ghost use Rattle.swsusp_cli.specs.Outcome.{IsReadAs, HandsOutAtMost};
ghost use Rattle.swsusp_cli.specs.declared.reading.ReadStop.{ReadStop};

use byte_streams::Source;
use std::alloc::Global;
use thiserror::Error;

/// The most bytes that a script may have.
const MAX_BYTES: usize = 1_048_576;

/// The number of bytes that are read at a time.
const PIECE: usize = 4096;

/// Why input wasn't read to its end.
#[derive(Clone, Copy, Debug, PartialEq, Eq, Error)]
pub enum ReadStop {
    #[error("the source failed")]
    Fault,
    #[error("no memory")]
    NoMemory,
}

/// Reads a script to its end, or to one byte past the largest.
pub fn read_script<I: Source>(alloc: Global, input: &mut I) -> Result<Vec<u8>, ReadStop>
    ensures read { IfOk result (λ bytes. IsReadAs (I.remaining input.old) bytes.items (I.remaining input.new)) }
    ensures few { HandsOutAtMost 1048577 (I.remaining input.old) (I.remaining input.new) }
    ensures stream { result ≡ Err ReadStop.Fault → HasRisen (I.faults input.old) (I.faults input.new) }
    ensures counted { I.faults input.old ≤ I.faults input.new }
{
    let mut bytes = Vec::new(alloc);
    let mut piece = [0; PIECE];
    while bytes.len() <= MAX_BYTES {
        let room = PIECE.min(MAX_BYTES + 1 - bytes.len());
        let count = match input.read(&mut piece[..room]) {
            Ok(count) => count,
            Err(_) => return Err(ReadStop::Fault),
        };
        if count == 0 {
            return Ok(bytes);
        }
        if bytes.extend_from_slice(&piece[..count]).is_err() {
            return Err(ReadStop::NoMemory);
        }
    }
    Ok(bytes)
}
