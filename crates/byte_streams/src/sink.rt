ghost use Rattle.std.specs.Prelude.{◌≡◌, ◌<◌, ◌≤◌, ℕ, List, Option, length, IfOk, OnOk, OnErr};
ghost use Rattle.definitions.specs.Disk.{HasRisen};
ghost use Rattle.definitions.specs.Streams.{Takes};
ghost use Rattle.byte_streams.specs.Flushed.{IsFlushed};
ghost use Rattle.byte_streams.specs.Flushes.{IsOfTaken, StaysFlushed};

use page_core::Failed;

/// A receiver of output. It may tell which bytes it has taken, and how many of them were flushed.
pub trait Sink {
    /// The bytes taken, if the sink tells them.
    ghost taken: { Self → Option (List ℕ) };

    /// How many of the bytes taken were flushed, if the sink tells that.
    ghost flushed: { Self → Option ℕ };

    /// How often the sink has failed. The count never falls, and saturates at 2^64-1.
    ghost faults: { Self → ℕ };

    /// Takes some bytes from the front of a piece, at least one unless it is empty, and returns how many. After a
    /// failure the bytes taken are as before. Nothing is flushed.
    fn write(&mut self, from: &[u8]) -> Result<usize, Failed>
        ensures count { IfOk result (λ k. k ≤ length from.now) }
        ensures progress { IfOk result (λ k. 0 < length from.now → 0 < k) }
        ensures bytes { IfOk result (λ k. Takes k from.now (taken self.old) (taken self.new)) }
        ensures failed { OnErr result (taken self.new ≡ taken self.old) }
        ensures flushed { flushed self.new ≡ flushed self.old }
        ensures counted { faults self.old ≤ faults self.new }
        ensures cause { OnErr result (HasRisen (faults self.old) (faults self.new)) };

    /// Passes on what was taken: all of it, or a part if the call fails. The bytes taken are as before.
    fn flush(&mut self) -> Result<(), Failed>
        ensures same { taken self.new ≡ taken self.old }
        ensures flushed { OnOk result (IsFlushed (taken self.new) (flushed self.new)) }
        ensures stays { StaysFlushed (flushed self.old) (flushed self.new) }
        ensures counted { faults self.old ≤ faults self.new }
        ensures cause { OnErr result (HasRisen (faults self.old) (faults self.new)) };

    /// No more bytes were flushed than were taken.
    ghost of_taken: { (s : Self) → IsOfTaken (taken s) (flushed s) };
}
