ghost use Rattle.std.specs.Prelude.{◌≡◌, ℕ, ◌*◌, ◌≤◌, All, length};
ghost use Rattle.std.specs.List.{fold};
ghost use Rattle.definitions.specs.Disk.{Content, IsContent};
ghost use Rattle.sector_disk.specs.Recorded.{AreKept, after, page_size, blocks_needed};

use crate::sectors::{Sector, write_block, write_picked};
use page_core::Page;

/// A recorded write or sync of a disk.
#[derive(Drop)]
pub enum Recorded {
    /// A write of a page to a block.
    Write(u32, Page),
    /// A failed write of a page to a block, and the pick of the sectors that it took.
    FailedWrite(u32, Page, u64),
    Sync,
    /// A sync that failed. It did nothing.
    FailedSync,
}

impl Recorded {
    /// Repeats the call on the durable and the live sectors of a disk.
    pub fn redo(&self, durable: &mut [Sector], live: &mut [Sector])
        requires same_length { length durable.old ≡ length live.old }
        requires inside { 8 * blocks_needed self.now ≤ length live.old }
        ensures { (blocks : ℕ) (c : Content) → IsContent blocks c → AreKept c durable.old live.old →
            AreKept (after c self.now) durable.new live.new }
    {
        match self {
            Recorded::Write(b, page) => write_block(live, *b as usize, page),
            Recorded::FailedWrite(b, page, pick) => write_picked(live, *b as usize, page, *pick),
            Recorded::Sync => durable.copy_from_slice(live),
            Recorded::FailedSync => {}
        }
    }
}

/// Repeats the calls, one after the other, on the durable and the live sectors of a disk.
pub fn redo_all(log: &[Recorded], durable: &mut [Sector], live: &mut [Sector])
    requires same_length { length durable.old ≡ length live.old }
    requires inside { All (λ r. 8 * blocks_needed r ≤ length live.old) log.now }
    ensures { (blocks : ℕ) (c : Content) → IsContent blocks c → All (λ r. page_size r ≡ 4096) log.now →
        AreKept c durable.old live.old → AreKept (fold after c log.now) durable.new live.new }
{
    for call in log {
        call.redo(durable, live);
    }
}
