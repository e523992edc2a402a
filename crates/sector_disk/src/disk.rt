ghost use Rattle.std.specs.Prelude.{◌≡◌, ℕ, ◌<◌, ◌≤◌, Bool, List, [], ◌∷◌, ◌++◌, IsTrue, Option, IsSome, IfSome};
ghost use Rattle.std.specs.Prelude.{OnOk, OnErr};
ghost use Rattle.definitions.specs.Disk.{Content, DiskImage, IsContent, IsImage, as_it_reads, block, Writes};
ghost use Rattle.definitions.specs.Disk.{FailsToWrite, Syncs, Restarts, Changes, Elapses, raised, HasRisen};
ghost use Rattle.sector_disk.specs.declared.orders.Order.{Order};
ghost use Rattle.sector_disk.specs.declared.orders.Order.TheVariants as order;

use page_core::{Failed, Page};

/// A disk of blocks of 4096 bytes. Block b is the sectors 8b to 8b+7 of 512 bytes, and the disk keeps a sector
/// whole: a power cut leaves, for each sector, one of the contents that it may have, its candidates.
///
/// A read, a write and a sync may fail at any place. Each failure is counted.
///
/// A disk may tell its content: for each sector its candidates, one of which is live: a read gives that one. It may
/// then also tell moments: a clock, and what a power cut since a moment might have left. A disk that tells neither,
/// such as a real one, has only the clauses on blocks and counts.
pub trait Disk {
    /// How many blocks the disk has.
    ghost block_count: { Self → ℕ };

    /// How many calls have failed. The count never falls.
    ghost faults: { Self → ℕ };

    /// How many reads, writes and syncs there were.
    ghost calls: { Self → ℕ };

    /// The restarts and arms that the disk was asked for, in their order.
    ghost orders: { Self → List Order };

    /// What the disk holds, if it tells its content.
    ghost content: { Self → Option Content };

    /// Whether the disk tells moments.
    ghost tells_moments: { Self → Bool };

    /// The clock. It doesn't fall between two restarts.
    ghost moment: { Self → ℕ };

    /// The images that a power cut at some moment from the given one on might have left, during a call or between two.
    ghost left_since: { Self → ℕ → DiskImage → Type 0 };

    /// Returns how many blocks the disk has.
    fn blocks(&self) -> u32
        ensures { result ≡ block_count self.now };

    /// Reads a block. After a failure `into` holds any bytes.
    fn read(&mut self, b: u32, into: &mut Page) -> Result<(), Failed>
        requires { b < block_count self.old }

        ensures bytes { OnOk result (IfSome (content self.old) (λ held. into.new ≡ block (as_it_reads held) b)) }
        ensures content { content self.new ≡ content self.old }

        // A failure is the disk's, and is counted.
        ensures cause { OnErr result (HasRisen (faults self.old) (faults self.new)) }
        ensures faults { faults self.old ≤ faults self.new }

        ensures calls { calls self.new ≡ raised (calls self.old) }
        ensures orders { orders self.new ≡ orders self.old }
        ensures blocks { block_count self.new ≡ block_count self.old }
        ensures telling { tells_moments self.new ≡ tells_moments self.old }
        ensures time { IsTrue (tells_moments self.old) → Changes (Elapses (moment self.old) (moment self.new)
            (left_since self.old) (left_since self.new)) (content self.old) (content self.new) };

    /// Writes a block. Until a sync, a power cut may leave what was there. A write that fails does its work for
    /// some of the block's sectors.
    fn write(&mut self, b: u32, from: &Page) -> Result<(), Failed>
        requires { b < block_count self.old }

        ensures written { OnOk result (Changes (Writes b from.now) (content self.old) (content self.new)) }
        ensures failed { OnErr result (Changes (FailsToWrite b from.now) (content self.old) (content self.new)) }

        ensures cause { OnErr result (HasRisen (faults self.old) (faults self.new)) }
        ensures faults { faults self.old ≤ faults self.new }

        ensures calls { calls self.new ≡ raised (calls self.old) }
        ensures orders { orders self.new ≡ orders self.old }
        ensures blocks { block_count self.new ≡ block_count self.old }
        ensures telling { tells_moments self.new ≡ tells_moments self.old }
        ensures time { IsTrue (tells_moments self.old) → Changes (Elapses (moment self.old) (moment self.new)
            (left_since self.old) (left_since self.new)) (content self.old) (content self.new) };

    /// Makes what a read gives the only content that a power cut may leave.
    fn sync(&mut self) -> Result<(), Failed>
        ensures synced { OnOk result (Changes Syncs (content self.old) (content self.new)) }
        ensures failed { OnErr result (content self.new ≡ content self.old) }

        ensures cause { OnErr result (HasRisen (faults self.old) (faults self.new)) }
        ensures faults { faults self.old ≤ faults self.new }

        ensures calls { calls self.new ≡ raised (calls self.old) }
        ensures orders { orders self.new ≡ orders self.old }
        ensures blocks { block_count self.new ≡ block_count self.old }
        ensures telling { tells_moments self.new ≡ tells_moments self.old }
        ensures time { IsTrue (tells_moments self.old) → Changes (Elapses (moment self.old) (moment self.new)
            (left_since self.old) (left_since self.new)) (content self.old) (content self.new) };

    /// Cuts the power: one image of the disk is its only image from now on. `pick` chooses which, if the disk supports
    /// that. The clock begins anew.
    fn restart(&mut self, pick: u64)
        ensures restarted { Changes Restarts (content self.old) (content self.new) }

        ensures faults { faults self.old ≤ faults self.new }
        ensures calls { calls self.new ≡ calls self.old }
        ensures orders { orders self.new ≡ orders self.old ++ order.Restart pick ∷ [] }
        ensures blocks { block_count self.new ≡ block_count self.old }
        ensures telling { tells_moments self.new ≡ tells_moments self.old }
        ensures time { IsTrue (tells_moments self.old) → moment self.new ≡ 0 };

    /// Asks the disk to make the calls number `first` to `first + count - 1` from now fail, if it can. `pick` chooses
    /// what a write that fails in this way leaves.
    fn arm(&mut self, first: u32, count: u32, pick: u64)
        ensures content { content self.new ≡ content self.old }

        ensures faults { faults self.old ≤ faults self.new }
        ensures calls { calls self.new ≡ calls self.old }
        ensures orders { orders self.new ≡ orders self.old ++ order.Arm first count pick ∷ [] }
        ensures blocks { block_count self.new ≡ block_count self.old }
        ensures telling { tells_moments self.new ≡ tells_moments self.old }
        ensures time { IsTrue (tells_moments self.old) → Changes (Elapses (moment self.old) (moment self.new)
            (left_since self.old) (left_since self.new)) (content self.old) (content self.new) };

    /// A disk that tells its content has, for each sector of its blocks, candidates, and a live one among them.
    ghost well_formed: { (d : Self) → IfSome (content d) (IsContent (block_count d)) };

    /// A disk that tells moments tells its content.
    ghost tells_content: { (d : Self) → IsTrue (tells_moments d) → IsSome (content d) };

    /// What a power cut may leave now, it might have left since any earlier moment.
    ghost counts_now: { (d : Self) (t : ℕ) (v : DiskImage) → IsTrue (tells_moments d) → t ≤ moment d →
        IfSome (content d) (λ held. IsImage held v → left_since d t v) };

    /// Since the current moment a power cut might have left nothing else.
    ghost only_now: { (d : Self) (v : DiskImage) → IsTrue (tells_moments d) → left_since d (moment d) v →
        IfSome (content d) (λ held. IsImage held v) };
}
