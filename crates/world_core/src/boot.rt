ghost use Rattle.std.specs.Prelude.{◌≡◌, ◌≢◌, ◌⊎◌, ◌<◌, ◌≤◌, ◌↔◌, true, false, length, Some, None, Ok, Err, IsTrue};
ghost use Rattle.std.specs.Prelude.{IfOk, IfErr, OnOk, OnErr, IfSome, MatchResult};
ghost use Rattle.definitions.specs.Bytes.{zero_page};
ghost use Rattle.definitions.specs.Disk.{HasRisen, raised, as_it_reads, Changes, Elapses};
ghost use Rattle.definitions.specs.Zones.{top};
ghost use Rattle.image_format.specs.declared.signature.area.Area.{Area as AreaValue};
ghost use Rattle.image_format.specs.declared.signature.area.AreaKind.TheVariants.{Swap};
ghost use Rattle.image_format.specs.AreaKind.{area_kind};
ghost use Rattle.plain_machine.specs.Machine.{block_of_slot};
ghost use Rattle.plain_machine.specs.Refusals.{asks_dump_to_boot};
ghost use Rattle.plain_machine.specs.FreshMemory.{fresh_frames};
ghost use Rattle.plain_machine.specs.UsableArea.{fit_fault, has_bad_slots_of};
ghost use Rattle.protocol_laws.specs.Headers.{is_image};
ghost use Rattle.world_core.specs.Started.{header_at, fault_at_start, memory_at_start};
ghost use Rattle.sector_disk.specs.Called.{Called};

use crate::World;
use crate::world::Core;
use frame_arena::Frames;
use image_format::{Area, AreaKind, take_back};
use machine::{Flight, Hardware, has_bad_slots, set_fresh, set_slots, slot_table, usable};
use page_core::{Failed, Page};
use plain_machine::{BootFrom, Held, Left, NoSwap, Reply};
use sector_disk::Disk;

// Booting: fresh memory at once, then a sync, then a read of the header block (own; Linux has its memory from the
// firmware).
impl World {
    ghost use Rattle.definitions.specs.Disk.{Content};
    ghost use Rattle.plain_machine.specs.declared.event.Event.TheVariants as event;
    ghost use Rattle.plain_machine.specs.declared.event.Actor.TheVariants as actor;
    ghost use Rattle.world_core.specs.declared.world.Core.TheVariants as core;
    ghost use Rattle.world_core.specs.Stepped.{HasStepped};
    ghost use Rattle.world_core.specs.StandsFor.{hardware_of, blocks_of, keeps_dump, IsOff, IsBusyIn};
    ghost use Rattle.plain_machine.specs.declared.reply.Reply.TheVariants as reply;
    ghost use Rattle.world_core.specs.StepsLeft.{steps_left};
    ghost use Rattle.world_core.specs.Row.{SimulatesWhereTold, Simulates, CallsAtMostOnce, IsRefused, ChangesNothing};
    ghost use Rattle.world_core.specs.Row.{Restores, TellsImage, blocks_after};
    ghost use Rattle.protocol_laws.specs.Rows.{TellsNewFault};
    ghost use Rattle.world_core.specs.Started.{IsStarted};

    /// Begins a boot on a disk of `blocks` blocks.
    pub(crate) fn boot(&mut self, blocks: u32, from: BootFrom) -> Reply
        ensures row { (c : Content) → Simulates (event.Boot from) self.old self.new result c c }
        ensures cause { TellsNewFault result → ⊥ }
        ensures hardware { hardware_of self.new ≡ hardware_of self.old }
        ensures blocks { ((self.new.core ≡ self.old.core) × (blocks_of self.new ≡ blocks_of self.old))
            ⊎ (blocks_of self.new ≡ blocks) }
        ensures kept { blocks_of self.new ≡ blocks_after (event.Boot from) result blocks (blocks_of self.old) }
        ensures refused { IsRefused (event.Boot from) self.old result → ChangesNothing self.old self.new }
    {
        if !self.is_off() {
            return Reply::NotOff;
        }
        if asks_dump(from) && !self.keeps_dump() {
            return Reply::NoDump;
        }
        self.begin_boot(blocks, from)
    }

    pub(crate) fn is_off(&self) -> bool
        ensures off { IsTrue result ↔ IsOff self.now }
        ensures busy { IsBusyIn self.now }
    {
        matches!(self.core, Core::Off { .. })
    }

    /// Begins a boot, from fresh memory or from the dump's that is kept.
    fn begin_boot(&mut self, blocks: u32, from: BootFrom) -> Reply
        requires off { IsOff self.old }
        requires dump { asks_dump_to_boot from ≡ true → keeps_dump self.old.core ≡ true }
        ensures row { (c : Content) → Simulates (event.Boot from) self.old self.new result c c }
        ensures cause { TellsNewFault result → ⊥ }
        ensures hardware { hardware_of self.new ≡ hardware_of self.old }
        ensures blocks { blocks_of self.new ≡ blocks }
        ensures reply { result ≡ reply.More 0 2 }
    {
        let hw = self.machine.hw;
        hw.is_hardware();
        set_memory(&mut self.frames, &hw, from);
        self.machine.blocks = blocks;
        self.core = Core::BootBegun(from);
        Reply::More { k: 0, of: 2 }
    }

    /// Makes the first step of a boot, a sync. If it succeeds, the disk has one image.
    pub(crate) fn sync_for_boot<D: Disk>(&mut self, disk: &mut D, from: BootFrom) -> Reply
        requires begun { self.old.core ≡ core.BootBegun from }
        ensures stepped { HasStepped self.old self.new result (D.content disk.old) (D.content disk.new) }
        ensures called { Called D.Disk (CallsAtMostOnce (event.Step actor.Core) result) (TellsNewFault result)
            disk.old disk.new }
    {
        match disk.sync() {
            Ok(()) => {
                self.core = Core::BootSynced(from);
                Reply::More { k: 1, of: 2 }
            }
            Err(Failed) => {
                self.core = Core::Off { keeps_dump: false };
                Reply::SyncFault { left: Left::Same }
            }
        }
    }

    /// Makes the second step of a boot: the header block says whether an image exists, and which area the disk has.
    pub(crate) fn finish_boot<D: Disk>(&mut self, disk: &mut D, from: BootFrom) -> Reply
        requires synced { self.old.core ≡ core.BootSynced from }
        requires blocks { D.block_count disk.old ≡ blocks_of self.old }
        ensures stepped { HasStepped self.old self.new result (D.content disk.old) (D.content disk.new) }
        ensures called { Called D.Disk (CallsAtMostOnce (event.Step actor.Core) result) (TellsNewFault result)
            disk.old disk.new }
    {
        let mut header = Page::zero();
        let block = self.machine.hw.extents().block(0);
        match read_header(disk, block, &mut header) {
            Ok(()) => Reply::Booted {
                image: self.start(&header, from),
            },
            Err(Failed) => {
                self.core = Core::Off { keeps_dump: false };
                Reply::ReadFault { left: Left::Same }
            }
        }
    }

    /// Starts the machine from its header block; returns whether that carries an image mark.
    fn start(&mut self, header: &Page, from: BootFrom) -> bool
        requires synced { self.old.core ≡ core.BootSynced from }
        requires on_disk { is_image (area_kind header.now) ≡ true →
            block_of_slot (hardware_of self.old) 0 < blocks_of self.old }
        ensures started { IsStarted from self.old self.new header.now result }
    {
        let hw = self.machine.hw;
        let kind = AreaKind::read(header);
        let image = is_image(&kind);
        let kind = if image {
            AreaKind::read(&take_back(header))
        } else {
            kind
        };
        self.machine.area = area_at_start(&mut self.frames, &hw, self.machine.blocks, &kind, from);
        self.machine.held = if image { Held::Yes } else { Held::No };
        self.machine.flights = [Flight::Nothing; 64];
        self.runs.rebuild(&self.frames, &slot_table(&hw));
        self.core = Core::Running;
        image
    }
}

/// Returns whether a boot starts from a dump's memory.
fn asks_dump(from: BootFrom) -> bool
    ensures { result ≡ asks_dump_to_boot from }
{
    matches!(from, BootFrom::Kept)
}

/// Sets fresh memory, or leaves the dump's as it is.
fn set_memory(frames: &mut Frames, hw: &Hardware, from: BootFrom)
    requires { length frames.old ≡ top hw.now.zones }
    ensures fresh { from ≡ BootFrom.Fresh → frames.new ≡ fresh_frames hw.now }
    ensures kept { from ≡ BootFrom.Kept → frames.new ≡ frames.old }
    ensures size { length frames.new ≡ length frames.old }
{
    match from {
        BootFrom::Fresh => set_fresh(frames, hw),
        BootFrom::Kept => {}
    }
}

/// Returns the area that is used from now on. Fresh memory gets its slot table; a dump's must have exactly the
/// area's bad slots.
fn area_at_start(
    frames: &mut Frames,
    hw: &Hardware,
    blocks: u32,
    kind: &AreaKind,
    from: BootFrom,
) -> Result<Area, NoSwap>
    requires { length frames.old ≡ top hw.now.zones }
    ensures area { MatchResult result
        (λ area. (kind.now ≡ Swap area) × (fault_at_start from hw.now blocks frames.old kind.now ≡ None))
        (λ why. fault_at_start from hw.now blocks frames.old kind.now ≡ Some why) }
    ensures fits { IfOk result (λ area. fit_fault hw.now blocks area ≡ None) }
    ensures frames { frames.new ≡ memory_at_start from hw.now result frames.old }
    ensures size { length frames.new ≡ length frames.old }
{
    let area = usable(hw, blocks, kind);
    match from {
        BootFrom::Fresh => {
            set_slots(frames, hw, &area);
            area
        }
        BootFrom::Kept => with_bad_slots(frames, hw, area),
    }
}

/// Returns the area for a dump's memory, which can use it only if its bad slots are exactly the area's.
fn with_bad_slots(
    frames: &Frames,
    hw: &Hardware,
    area: Result<Area, NoSwap>,
) -> Result<Area, NoSwap>
    requires { length frames.now ≡ top hw.now.zones }
    ensures ok { IfOk result (λ a. (area ≡ Ok a) × (has_bad_slots_of hw.now frames.now a ≡ true)) }
    ensures refused { IfErr result (λ why. (area ≡ Err why)
        ⊎ ((a : AreaValue) × (area ≡ Ok a) × (has_bad_slots_of hw.now frames.now a ≡ false) × (why ≡ NoSwap.BadSet))) }
{
    let area = area?;
    if has_bad_slots(frames, hw, &area) {
        Ok(area)
    } else {
        Err(NoSwap::BadSet)
    }
}

/// Returns whether a header block carries the mark of an image.
fn is_image(kind: &AreaKind) -> bool
    ensures { result ≡ is_image kind.now }
{
    matches!(kind, AreaKind::Image(_))
}

/// Reads the header block into a page of zeros. A block that isn't one of the disk's counts as zeros, and isn't read.
fn read_header<D: Disk>(disk: &mut D, block: u64, into: &mut Page) -> Result<(), Failed>
    requires { into.old ≡ zero_page }
    ensures beyond { D.block_count disk.old ≤ block → into.new ≡ zero_page }
    ensures header { OnOk result (IfSome (D.content disk.old)
        (λ held. into.new ≡ header_at block (D.block_count disk.old) (as_it_reads held))) }
    ensures content { D.content disk.new ≡ D.content disk.old }
    ensures cause { OnErr result (HasRisen (D.faults disk.old) (D.faults disk.new)) }
    ensures faults { D.faults disk.old ≤ D.faults disk.new }
    ensures calls { (D.calls disk.new ≡ D.calls disk.old) ⊎ (D.calls disk.new ≡ raised (D.calls disk.old)) }
    ensures orders { D.orders disk.new ≡ D.orders disk.old }
    ensures blocks { D.block_count disk.new ≡ D.block_count disk.old }
    ensures telling { D.tells_moments disk.new ≡ D.tells_moments disk.old }
    ensures time { IsTrue (D.tells_moments disk.old) → Changes (Elapses (D.moment disk.old) (D.moment disk.new)
        (D.left_since disk.old) (D.left_since disk.new)) (D.content disk.old) (D.content disk.new) }
{
    if block >= u64::from(disk.blocks()) {
        return Ok(());
    }
    disk.read(block as u32, into)
}
