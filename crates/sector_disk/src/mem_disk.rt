ghost use Rattle.std.specs.Prelude.{◌≡◌, ◌*◌, ◌%◌, ◌≤◌, length, All, IfOk, vec_capacity};
ghost use Rattle.sector_disk.specs.Sectors.{AreSectors, SameOutsideRange};
ghost use Rattle.definitions.specs.declared.counts.TheConstants.{SECTOR_SIZE};

use crate::Disk;
use crate::calls::Calls;
use crate::orders::{Order, Orders};
use crate::recorded::{Recorded, redo_all};
use crate::sectors::{
    SECTORS_IN_BLOCK, Sector, ZEROS, copy_first, fill_up, read_block, restart_sectors, room_for,
    sync_sectors, write_block, write_picked,
};
use page_core::{Failed, NoMemory, Page};
use std::alloc::Global;

/// A disk in memory. For each sector it has the durable bytes, which the last sync left, and the live ones. A restart
/// keeps one or the other for each sector, as its pick says.
///
/// The disk begins as zeros. Memory for all blocks is allocated when it is made, but filled only up to the last block
/// that was written. Memory past that block isn't touched.
///
/// It tells its content and no moments.
#[derive(Drop)]
pub struct MemDisk {
    blocks: u32,
    // The first sectors, the same number of both. The others are zeros in both.
    durable: Vec<Sector>,
    live: Vec<Sector>,
    // The range of sectors that may differ: from the first one written since the last sync to the end of the last one.
    low: usize,
    high: usize,
    calls: Calls,
    orders: Orders,
    ghost same_length: { length durable.items ≡ length live.items },
    ghost whole_blocks: { length live.items % 8 ≡ 0 },
    ghost within: { length live.items ≤ 8 * blocks },
    ghost durable_whole: { All (λ bytes. length bytes ≡ SECTOR_SIZE) durable.items },
    ghost live_whole: { All (λ bytes. length bytes ≡ SECTOR_SIZE) live.items },
    ghost durable_room: { 8 * blocks ≤ vec_capacity durable },
    ghost live_room: { 8 * blocks ≤ vec_capacity live },
    ghost synced: { SameOutsideRange low high durable.items live.items },
    ghost ends: { high ≤ length live.items },
}

impl MemDisk {
    ghost use Rattle.sector_disk.specs.Recorded.{AreKept, held_after, page_size, blocks_needed};
    ghost use Rattle.sector_disk.specs.MemDisk.{IsNew, IsRefused, KeepsArmed, block_count, call_count, fault_count};
    ghost use Rattle.sector_disk.specs.MemDisk.{orders_got, armed_pick, durable_sectors, live_sectors};

    /// Creates a disk of zeros with `blocks` blocks.
    pub fn create(alloc: Global, blocks: u32) -> Result<MemDisk, NoMemory>
        ensures { IfOk result (IsNew blocks) }
    {
        let count = SECTORS_IN_BLOCK * blocks as usize;
        let durable = room_for(alloc, count)?;
        let live = room_for(alloc, count)?;
        Ok(MemDisk {
            blocks,
            durable,
            live,
            low: usize::MAX,
            high: 0,
            calls: Calls::none(),
            orders: Orders::new(),
        })
    }

    /// Counts a read, a write or a sync that fails, whether or not it is armed, and changes no sector. A disk built on
    /// top of this one reports in this way a call that it can't serve.
    pub fn refuse(&mut self)
        ensures refused { IsRefused self.old self.new }
    {
        self.calls.lose_turn();
    }

    /// Returns the pick of the sectors that a write takes if it fails.
    pub fn armed_pick(&self) -> u64
        ensures pick { result ≡ armed_pick self.now }
    {
        self.calls.pick
    }

    /// Sets the sectors to those of a disk that began with `start` and took the calls of `log`. Nothing is counted, and
    /// the same calls stay armed.
    pub fn replay(&mut self, start: &[Sector], log: &[Recorded])
        requires start { AreSectors (8 * block_count self.old) start.now }
        requires inside { All (λ r. blocks_needed r ≤ block_count self.old) log.now }
        requires pages { All (λ r. page_size r ≡ 4096) log.now }
        ensures kept { AreKept (held_after start.now log.now) (durable_sectors self.new) (live_sectors self.new) }
        ensures armed { KeepsArmed self.old self.new }
        ensures calls { call_count self.new ≡ call_count self.old }
        ensures faults { fault_count self.new ≡ fault_count self.old }
        ensures orders { orders_got self.new ≡ orders_got self.old }
        ensures blocks { block_count self.new ≡ block_count self.old }
    {
        self.keep_up_to(SECTORS_IN_BLOCK * self.blocks as usize);
        self.durable.copy_from_slice(start);
        self.live.copy_from_slice(start);
        redo_all(log, &mut self.durable, &mut self.live);
        self.low = 0;
        self.high = self.live.len();
    }

    /// Copies the sectors as a read gives them.
    pub fn copy_live(&self, into: &mut [Sector])
        requires size { length into.old ≡ 8 * block_count self.now }
        ensures sectors { into.new ≡ live_sectors self.now }
        ensures whole { AreSectors (8 * block_count self.now) into.new }
    {
        copy_first(&self.live, into);
    }

    /// Extends the kept sectors to at least `end`. Those that are added are zeros.
    fn keep_up_to(&mut self, end: usize)
        requires inside { end ≤ 8 * block_count self.old }
        requires whole { end % 8 ≡ 0 }
        ensures kept { end ≤ length self.new.live.items }
        ensures durable { durable_sectors self.new ≡ durable_sectors self.old }
        ensures live { live_sectors self.new ≡ live_sectors self.old }
        ensures calls { self.new.calls ≡ self.old.calls }
        ensures orders { orders_got self.new ≡ orders_got self.old }
        ensures blocks { block_count self.new ≡ block_count self.old }
    {
        if self.live.len() < end {
            fill_up(&mut self.durable, end);
            fill_up(&mut self.live, end);
        }
    }
}

impl Disk for MemDisk {
    ghost use Rattle.std.specs.Prelude.{◌≡◌, ℕ, ◌+◌, ◌<◌, ◌≤◌, ◌↔◌, Some, OnOk, OnErr, false};
    ghost use Rattle.definitions.specs.Disk.{as_it_reads, block, Writes, FailsToWrite, Syncs, Restarts};
    ghost use Rattle.sector_disk.specs.MemDisk.{block_count, content, durable_sectors, live_sectors, IsArmed};
    ghost use Rattle.sector_disk.specs.MemDisk.{armed_pick, KeepsArmed, IsCalled, IsOrdered};
    ghost use Rattle.std.proofs.lemmas.Bool.{false≢true};
    ghost use Rattle.sector_disk.specs.Sectors.{IsPicked, TakesPicked};
    ghost use Rattle.sector_disk.specs.ContentLaws.{content_of_padded};
    ghost use Rattle.sector_disk.specs.declared.orders.Order.TheVariants as order;

    ghost block_count = { λ d. d.blocks };

    ghost faults = { λ d. d.calls.faults };

    ghost calls = { λ d. d.calls.made };

    ghost orders = { λ d. d.orders.list };

    ghost content = { λ d. Some (content d) };

    ghost tells_moments = { λ _. false };

    ghost moment = { λ _. 0 };

    ghost left_since = { λ _ _ _. ⊥ };

    ghost well_formed = { λ d. content_of_padded d.blocks d.durable.items d.live.items d.same_length d.within
        d.durable_whole d.live_whole };

    ghost tells_content = { λ d tells. absurd (false≢true tells) };

    ghost counts_now = { λ d t v tells. absurd (false≢true tells) };

    ghost only_now = { λ d v tells. absurd (false≢true tells) };

    fn blocks(&self) -> u32 {
        self.blocks
    }

    fn read(&mut self, b: u32, into: &mut Page) -> Result<(), Failed>
        requires { b < block_count self.old }
        ensures bytes { OnOk result (into.new ≡ block (as_it_reads (content self.old)) b) }
        ensures durable { durable_sectors self.new ≡ durable_sectors self.old }
        ensures live { live_sectors self.new ≡ live_sectors self.old }
        ensures called { IsCalled self.old self.new result }
    {
        self.calls.take_turn()?;
        let first = SECTORS_IN_BLOCK * b as usize;
        if first < self.live.len() {
            read_block(&self.live[first..first + SECTORS_IN_BLOCK], into);
        } else {
            read_block(&ZEROS, into);
        }
        Ok(())
    }

    fn write(&mut self, b: u32, from: &Page) -> Result<(), Failed>
        requires { b < block_count self.old }
        ensures written { OnOk result (Writes b from.now (content self.old) (content self.new)) }
        ensures failed { OnErr result (FailsToWrite b from.now (content self.old) (content self.new)) }
        ensures picked { OnErr result (TakesPicked (armed_pick self.old) b from.now (live_sectors self.old)
            (live_sectors self.new)) }
        ensures durable { durable_sectors self.new ≡ durable_sectors self.old }
        ensures called { IsCalled self.old self.new result }
    {
        let b = b as usize;
        self.keep_up_to(SECTORS_IN_BLOCK * b + SECTORS_IN_BLOCK);
        self.low = self.low.min(SECTORS_IN_BLOCK * b);
        self.high = self.high.max(SECTORS_IN_BLOCK * b + SECTORS_IN_BLOCK);
        let answer = self.calls.take_turn();
        match answer {
            Ok(()) => write_block(&mut self.live, b, from),
            Err(Failed) => write_picked(&mut self.live, b, from, self.calls.pick),
        }
        answer
    }

    fn sync(&mut self) -> Result<(), Failed>
        ensures synced { OnOk result (Syncs (content self.old) (content self.new)) }
        ensures durable { OnOk result (durable_sectors self.new ≡ live_sectors self.old) }
        ensures failed { OnErr result (durable_sectors self.new ≡ durable_sectors self.old) }
        ensures live { live_sectors self.new ≡ live_sectors self.old }
        ensures called { IsCalled self.old self.new result }
    {
        self.calls.take_turn()?;
        sync_sectors(&mut self.durable, &self.live, self.low, self.high);
        self.low = usize::MAX;
        self.high = 0;
        Ok(())
    }

    fn restart(&mut self, pick: u64)
        ensures restarted { Restarts (content self.old) (content self.new) }
        ensures picked { IsPicked pick (durable_sectors self.old) (live_sectors self.old) (live_sectors self.new) }
        ensures durable { durable_sectors self.new ≡ live_sectors self.new }
        ensures armed { KeepsArmed self.old self.new }
        ensures ordered { IsOrdered (order.Restart pick) self.old self.new }
    {
        restart_sectors(&mut self.durable, &mut self.live, self.low, self.high, pick);
        self.low = usize::MAX;
        self.high = 0;
        self.orders = self.orders.and(&Order::Restart { pick });
    }

    fn arm(&mut self, first: u32, count: u32, pick: u64)
        ensures armed { (k : ℕ) → 0 < k → (IsArmed self.new k ↔ ((first ≤ k) × (k < first + count))) }
        ensures pick { armed_pick self.new ≡ pick }
        ensures durable { durable_sectors self.new ≡ durable_sectors self.old }
        ensures live { live_sectors self.new ≡ live_sectors self.old }
        ensures ordered { IsOrdered (order.Arm first count pick) self.old self.new }
    {
        self.calls.arm(first, count, pick);
        self.orders = self.orders.and(&Order::Arm { first, count, pick });
    }
}
