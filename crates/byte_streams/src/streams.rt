ghost use Rattle.std.specs.Prelude.{◌≡◌, ◌≤◌, None, ℕ, IfOk, length};
ghost use Rattle.definitions.specs.Disk.{HasRisen};

use crate::sink::Sink;
use crate::source::Source;
use page_core::Failed;
use std::io::{self, ErrorKind, Read, Write};

/// A reader of the system, such as standard input. It doesn't tell its bytes. A call that a signal interrupts is made
/// again.
#[derive(Drop)]
pub struct StdSource<R: Read + Drop> {
    reader: R,
    faults: u64,
}

impl<R: Read + Drop> StdSource<R> {
    /// Returns a source over a reader, without a fault so far.
    pub fn new(reader: R) -> StdSource<R>
        ensures { ⟦<StdSource<R> as Source>⟧.faults result ≡ 0 }
    {
        StdSource { reader, faults: 0 }
    }
}

impl<R: Read + Drop> Source for StdSource<R> {
    ghost remaining = { λ _. None };

    ghost faults = { λ s. s.faults };

    fn read(&mut self, into: &mut [u8]) -> Result<usize, Failed> {
        match read_again(&mut self.reader, into) {
            Ok(count) => Ok(count),
            Err(_) => {
                self.faults = self.faults.saturating_add(1);
                Err(Failed)
            }
        }
    }
}

/// A writer of the system, such as standard output. It doesn't tell the bytes that it takes. A call that a signal
/// interrupts is made again.
#[derive(Drop)]
pub struct StdSink<W: Write + Drop> {
    writer: W,
    faults: u64,
}

impl<W: Write + Drop> StdSink<W> {
    /// Returns a sink over a writer, without a fault so far.
    pub fn new(writer: W) -> StdSink<W>
        ensures { ⟦<StdSink<W> as Sink>⟧.faults result ≡ 0 }
    {
        StdSink { writer, faults: 0 }
    }

    fn fail(&mut self) -> Failed
        ensures counted { self.old.faults ≤ self.new.faults }
        ensures risen { HasRisen self.old.faults self.new.faults }
    {
        self.faults = self.faults.saturating_add(1);
        Failed
    }
}

impl<W: Write + Drop> Sink for StdSink<W> {
    ghost taken = { λ _. None };

    ghost flushed = { λ _. None };

    ghost faults = { λ s. s.faults };

    ghost of_taken = { λ _. tt };

    /// Writes to the system. A write that takes nothing of a piece that isn't empty is a fault.
    fn write(&mut self, from: &[u8]) -> Result<usize, Failed> {
        match write_again(&mut self.writer, from) {
            Ok(count) if count > 0 || from.is_empty() => Ok(count),
            _ => Err(self.fail()),
        }
    }

    fn flush(&mut self) -> Result<(), Failed> {
        match flush_again(&mut self.writer) {
            Ok(()) => Ok(()),
            Err(_) => Err(self.fail()),
        }
    }
}

/// Reads, again if a signal interrupts the call.
fn read_again<R: Read>(reader: &mut R, into: &mut [u8]) -> io::Result<usize>
    ensures { IfOk result (λ count. count ≤ length into.old) }
{
    for _ in 0..u64::MAX {
        match reader.read(into) {
            Err(error) if error.kind() == ErrorKind::Interrupted => {}
            answer => return answer,
        }
    }
    Err(ErrorKind::Interrupted.into())
}

/// Writes, again if a signal interrupts the call.
fn write_again<W: Write>(writer: &mut W, from: &[u8]) -> io::Result<usize>
    ensures { IfOk result (λ count. count ≤ length from.now) }
{
    for _ in 0..u64::MAX {
        match writer.write(from) {
            Err(error) if error.kind() == ErrorKind::Interrupted => {}
            answer => return answer,
        }
    }
    Err(ErrorKind::Interrupted.into())
}

/// Flushes, again if a signal interrupts the call.
fn flush_again<W: Write>(writer: &mut W) -> io::Result<()> {
    for _ in 0..u64::MAX {
        match writer.flush() {
            Err(error) if error.kind() == ErrorKind::Interrupted => {}
            answer => return answer,
        }
    }
    Err(ErrorKind::Interrupted.into())
}
