ghost use Rattle.std.specs.Prelude.{◌≡◌, ◌<◌, ◌≤◌, ℕ, List, Option, length, IfOk, OnErr};
ghost use Rattle.definitions.specs.Disk.{HasRisen};
ghost use Rattle.definitions.specs.Streams.{HandsOut, IsUsedUp};

use page_core::Failed;

/// An origin of input. It may tell which bytes are left.
pub trait Source {
    /// The bytes left, if the source tells them.
    ghost remaining: { Self → Option (List ℕ) };

    /// How often the source has failed. The count never falls, and saturates at 2^64-1.
    ghost faults: { Self → ℕ };

    /// Reads some bytes into a piece, and returns how many. If the piece isn't empty, 0 means the end of input. After a
    /// failure the bytes left are as before.
    fn read(&mut self, into: &mut [u8]) -> Result<usize, Failed>
        ensures count { IfOk result (λ k. k ≤ length into.old) }
        ensures bytes { IfOk result (λ k. HandsOut k into.new (remaining self.old) (remaining self.new)) }
        ensures end { IfOk result (λ k. k ≡ 0 → 0 < length into.old → IsUsedUp (remaining self.old)) }
        ensures failed { OnErr result (remaining self.new ≡ remaining self.old) }
        ensures counted { faults self.old ≤ faults self.new }
        ensures cause { OnErr result (HasRisen (faults self.old) (faults self.new)) };
}
