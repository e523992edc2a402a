ghost use Rattle.std.specs.Prelude.{◌≡◌, ◌*◌, ◌≤◌, All, IfOk, replicate, vec_len, vec_capacity};
ghost use Rattle.definitions.specs.Disk.{as_it_reads};
ghost use Rattle.sector_disk.specs.MemDisk as memory;
ghost use Rattle.sector_disk.specs.Sectors.{AreSectors};
ghost use Rattle.sector_disk.specs.Recorded.{held_after, as_synced, page_size, blocks_needed};

use definitions::SECTOR_SIZE;
use page_core::{Failed, NoMemory, Page};
use sector_disk::{Disk, MemDisk, Recorded, SECTORS_IN_BLOCK, Sector};
use std::alloc::Global;

/// A disk in memory that records its writes and syncs since the last restart.
///
/// It tells its content, with every candidate since the last sync: what the last sync or restart left, and what each
/// write since then wrote. For each sector, a restart takes the live bytes or those of the last sync, as its pick says.
/// The disk tells moments too: the clock is the number of recorded calls, and a restart begins a new record. A test of
/// power cuts may also restart it at an earlier moment.
///
/// Each write and each sync takes room in the record, even one that fails because it was armed. Without room a call
/// fails, is a fault, and leaves every sector.
#[derive(Drop)]
pub struct LogDisk {
    disk: MemDisk,
    // The sectors as the last restart left them.
    start: Vec<Sector>,
    log: Vec<Recorded>,
    room: u32,
    ghost start_whole: { AreSectors (8 * memory.block_count disk) start.items },
    ghost pages_whole: { All (λ r. page_size r ≡ 4096) log.items },
    ghost blocks_inside: { All (λ r. blocks_needed r ≤ memory.block_count disk) log.items },
    pub ghost live: { memory.live_sectors disk ≡ as_it_reads (held_after start.items log.items) },
    pub ghost synced: { memory.durable_sectors disk ≡ as_synced (held_after start.items log.items) },
    ghost within: { vec_len log ≤ room },
    ghost capacity: { room ≤ vec_capacity log },
}

impl LogDisk {
    ghost use Rattle.std.specs.Prelude.{IsTrue, IsErr, [], ◌↔◌};
    ghost use Rattle.definitions.specs.Disk.{DiskImage, Restarts, settled};
    ghost use Rattle.recording_disk.specs.Moments.{held_at};
    ghost use Rattle.sector_disk.specs.Sectors.{IsPicked};
    ghost use Rattle.recording_disk.specs.LogDisk.{IsNewLogDisk, IsFull, content, moment, left_since, first_sectors};
    ghost use Rattle.recording_disk.specs.LogDisk.{recorded};
    ghost use Rattle.recording_disk.specs.LogDisk.{durable_sectors, live_sectors, KeepsArmed, IsOrdered};
    ghost use Rattle.recording_disk.specs.LogDisk.{IsRecordedCall};
    ghost use Rattle.recording_disk.specs.LogDisk.{LeavesAll};
    ghost use Rattle.sector_disk.specs.declared.orders.Order.TheVariants as order;

    /// Makes a disk of zeros, with room for `calls` recorded calls.
    pub fn create(alloc: Global, blocks: u32, calls: u32) -> Result<LogDisk, NoMemory>
        ensures { IfOk result (IsNewLogDisk blocks calls) }
    {
        let disk = MemDisk::create(alloc, blocks)?;
        let start = zero_sectors(alloc, SECTORS_IN_BLOCK * blocks as usize)?;
        let log = Vec::with_capacity(alloc, calls as usize).map_err(|_| NoMemory)?;
        Ok(LogDisk {
            disk,
            start,
            log,
            room: calls,
        })
    }

    /// Cuts the power at an earlier moment: after `calls` of the recorded calls, or after all if there are fewer. For
    /// each sector, takes the bytes that were live then or those that the last sync before left, as the pick says. Like
    /// a restart, this begins a new record.
    pub fn restart_at(&mut self, calls: u32, pick: u64)
        ensures restarted { Restarts (held_at (first_sectors self.old) (recorded self.old) calls) (content self.new) }
        ensures past { calls ≤ moment self.old → (v : DiskImage) × left_since self.old calls v
            × (content self.new ≡ settled v) }
        ensures picked { let held = held_at (first_sectors self.old) (recorded self.old) calls in IsPicked pick
            (as_synced held) (as_it_reads held) (live_sectors self.new) }
        ensures durable { durable_sectors self.new ≡ live_sectors self.new }
        ensures first { first_sectors self.new ≡ live_sectors self.new }
        ensures recorded { recorded self.new ≡ [] }
        ensures armed { KeepsArmed self.old self.new }
        ensures ordered { IsOrdered (order.Restart pick) self.old self.new }
    {
        self.log.truncate(calls as usize);
        self.disk.replay(&self.start, &self.log);
        self.restart(pick);
    }

    /// Returns how many calls were recorded since the last restart.
    pub fn recorded_calls(&self) -> u32
        ensures { result ≡ moment self.now }
    {
        // Reading a field tells the prover its range.
        let _room = self.room;
        self.log.len() as u32
    }

    /// Returns whether there is no room for another write or sync.
    pub fn is_full(&self) -> bool
        ensures { IsTrue result ↔ IsFull self.now }
    {
        self.log.len() >= self.room as usize
    }

    /// Counts a call for which there is no room.
    fn refuse(&mut self) -> Result<(), Failed>
        ensures fails { IsErr result }
        ensures leaves { LeavesAll self.old self.new }
        ensures called { IsRecordedCall self.old self.new result }
    {
        self.disk.refuse();
        Err(Failed)
    }
}

/// Makes `count` sectors of zeros.
fn zero_sectors(alloc: Global, count: usize) -> Result<Vec<Sector>, NoMemory>
    ensures { IfOk result (λ sectors. sectors.items ≡ replicate count (replicate SECTOR_SIZE 0)) }
{
    let mut sectors = Vec::new(alloc);
    match sectors.resize(count, [0; SECTOR_SIZE]) {
        Ok(()) => Ok(sectors),
        Err(_) => Err(NoMemory),
    }
}

impl Disk for LogDisk {
    ghost use Rattle.std.specs.Prelude.{ℕ, ◌+◌, ◌<◌, ◌↔◌, ◌⊎◌, [], Some, OnOk, OnErr, IsErr, true, length, refl};
    ghost use Rattle.std.specs.List.{push};
    ghost use Rattle.definitions.specs.Disk.{block, Writes, FailsToWrite, Syncs, Restarts, Elapses};
    ghost use Rattle.recording_disk.specs.LogDisk.{orders_got, block_count, fault_count, call_count, content, moment};
    ghost use Rattle.recording_disk.specs.LogDisk.{left_since};
    ghost use Rattle.recording_disk.specs.LogDisk.{first_sectors, recorded, durable_sectors, live_sectors, IsArmed};
    ghost use Rattle.recording_disk.specs.LogDisk.{armed_pick, KeepsArmed};
    ghost use Rattle.recording_disk.specs.LogDisk.{IsRecordedCall, IsOrdered, IsFull, LeavesAll};
    ghost use Rattle.recording_disk.specs.Moments.{WasLeft};
    ghost use Rattle.sector_disk.specs.RecordedLaws.{held_whole};
    ghost use Rattle.recording_disk.specs.MomentLaws.{WasLeft-now, WasLeft-only};
    ghost use Rattle.sector_disk.specs.Sectors.{IsPicked, TakesPicked};
    ghost use Rattle.sector_disk.specs.declared.orders.Order.TheVariants as order;
    ghost use Rattle.sector_disk.specs.declared.recorded.Recorded.TheVariants as call;

    ghost block_count = { λ d. block_count d };

    ghost faults = { λ d. fault_count d };

    ghost calls = { λ d. call_count d };

    ghost orders = { λ d. orders_got d };

    ghost content = { λ d. Some (held_after d.start.items d.log.items) };

    ghost tells_moments = { λ _. true };

    ghost moment = { λ d. length d.log.items };

    ghost left_since = { λ d. WasLeft d.start.items d.log.items };

    ghost well_formed = { λ d. held_whole (block_count d) d.start.items d.log.items d.start_whole d.pages_whole };

    ghost tells_content = { λ d tells. refl };

    ghost counts_now = { λ d t v tells. WasLeft-now d.start.items d.log.items t v };

    ghost only_now = { λ d v tells. WasLeft-only d.start.items d.log.items v };

    fn blocks(&self) -> u32 {
        self.disk.blocks()
    }

    fn read(&mut self, b: u32, into: &mut Page) -> Result<(), Failed>
        requires { b < block_count self.old }
        ensures bytes { OnOk result (into.new ≡ block (as_it_reads (content self.old)) b) }
        ensures fails { IsErr result ↔ IsArmed self.old 1 }
        ensures leaves { LeavesAll self.old self.new }
        ensures called { IsRecordedCall self.old self.new result }
    {
        self.disk.read(b, into)
    }

    fn write(&mut self, b: u32, from: &Page) -> Result<(), Failed>
        requires { b < block_count self.old }
        ensures written { OnOk result (Writes b from.now (content self.old) (content self.new)) }
        ensures failed { OnErr result (FailsToWrite b from.now (content self.old) (content self.new)) }
        ensures picked { OnErr result ((IsFull self.old → ⊥) →
            TakesPicked (armed_pick self.old) b from.now (live_sectors self.old) (live_sectors self.new)) }
        ensures durable { durable_sectors self.new ≡ durable_sectors self.old }
        ensures recorded { OnOk result (recorded self.new ≡ push (recorded self.old) (call.Write b from.now)) }
        ensures recorded_failure { OnErr result ((IsFull self.old → ⊥) →
            recorded self.new ≡ push (recorded self.old) (call.FailedWrite b from.now (armed_pick self.old))) }
        ensures time { Elapses (moment self.old) (moment self.new) (left_since self.old) (left_since self.new)
            (content self.old) (content self.new) }
        ensures fails { IsErr result ↔ (IsArmed self.old 1 ⊎ IsFull self.old) }
        ensures full { IsFull self.old → LeavesAll self.old self.new }
        ensures called { IsRecordedCall self.old self.new result }
    {
        if self.is_full() {
            return self.refuse();
        }
        let answer = self.disk.write(b, from);
        let page = Page::from_bytes(from.as_bytes());
        match answer {
            Ok(()) => self.log.push_reserved(Recorded::Write(b, page)),
            Err(Failed) => {
                let pick = self.disk.armed_pick();
                self.log.push_reserved(Recorded::FailedWrite(b, page, pick));
            }
        }
        answer
    }

    fn sync(&mut self) -> Result<(), Failed>
        ensures synced { OnOk result (Syncs (content self.old) (content self.new)) }
        ensures durable { OnOk result (durable_sectors self.new ≡ live_sectors self.old) }
        ensures failed { OnErr result (content self.new ≡ content self.old) }
        ensures failed_durable { OnErr result (durable_sectors self.new ≡ durable_sectors self.old) }
        ensures live { live_sectors self.new ≡ live_sectors self.old }
        ensures recorded { OnOk result (recorded self.new ≡ push (recorded self.old) call.Sync) }
        ensures recorded_failure { OnErr result ((IsFull self.old → ⊥) →
            recorded self.new ≡ push (recorded self.old) call.FailedSync) }
        ensures time { Elapses (moment self.old) (moment self.new) (left_since self.old) (left_since self.new)
            (content self.old) (content self.new) }
        ensures fails { IsErr result ↔ (IsArmed self.old 1 ⊎ IsFull self.old) }
        ensures full { IsFull self.old → LeavesAll self.old self.new }
        ensures called { IsRecordedCall self.old self.new result }
    {
        if self.is_full() {
            return self.refuse();
        }
        let answer = self.disk.sync();
        match answer {
            Ok(()) => self.log.push_reserved(Recorded::Sync),
            Err(Failed) => self.log.push_reserved(Recorded::FailedSync),
        }
        answer
    }

    fn restart(&mut self, pick: u64)
        ensures restarted { Restarts (content self.old) (content self.new) }
        ensures picked { IsPicked pick (durable_sectors self.old) (live_sectors self.old) (live_sectors self.new) }
        ensures durable { durable_sectors self.new ≡ live_sectors self.new }
        ensures first { first_sectors self.new ≡ live_sectors self.new }
        ensures recorded { recorded self.new ≡ [] }
        ensures armed { KeepsArmed self.old self.new }
        ensures ordered { IsOrdered (order.Restart pick) self.old self.new }
    {
        self.disk.restart(pick);
        self.disk.copy_live(&mut self.start);
        self.log.clear();
    }

    fn arm(&mut self, first: u32, count: u32, pick: u64)
        ensures armed { (k : ℕ) → 0 < k → (IsArmed self.new k ↔ ((first ≤ k) × (k < first + count))) }
        ensures pick { armed_pick self.new ≡ pick }
        ensures leaves { LeavesAll self.old self.new }
        ensures ordered { IsOrdered (order.Arm first count pick) self.old self.new }
    {
        self.disk.arm(first, count, pick);
    }
}
