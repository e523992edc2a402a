ghost use Rattle.std.specs.Prelude.{◌≡◌, ◌≤◌, ◌<◌, ℕ, ◌+◌, ◌++◌, [], ◌∷◌, length, IfOk, IfErr, OnOk, OnErr, Contains};
ghost use Rattle.std.specs.Prelude.{All, Some, None, Ok};
ghost use Rattle.definitions.specs.FrameSets.{inserted};
ghost use Rattle.definitions.specs.Slots.{extent_at};
ghost use Rattle.definitions.specs.Zones.{numbers, top};
ghost use Rattle.machine.specs.FreshSlots.{slot_of_area};
ghost use Rattle.machine.specs.HardFault.{hard_fault};
ghost use Rattle.plain_machine.specs.FreshMemory.{fresh_memory};
ghost use Rattle.plain_machine.specs.Loader.{need};
ghost use Rattle.plain_machine.specs.Machine.{Fits, IsHardware, unused};
ghost use Rattle.image_machine.specs.Layouts.{extents_of, extents_or_one, slots_of, zones_of, zones_or_one};
ghost use Rattle.image_machine.specs.Limits.{AreTables, HasNoRoom, HasTooFew, PassesAtLast, StopsAtLast, StopsAtOnce};
ghost use Rattle.image_machine.specs.Limits.{PassesAtOnce};
ghost use Rattle.image_machine.specs.Loaders.{IsLoaderFor, hardware_with};
ghost use Rattle.image_machine.specs.Machines.{PassesByTables};
ghost use Rattle.image_machine.specs.Plans.{IsPlan, IsSmall};
ghost use Rattle.image_machine.specs.declared.heading.Heading.{Heading};
ghost use Rattle.image_machine.specs.declared.heading.Layout.{Layout};
ghost use Rattle.image_machine.specs.declared.limit.Limit.TheVariants as limit;
ghost use Rattle.frame_sets.specs.Faults.{Refuses};

use crate::heading::{Heading, Layout};
use crate::limit::{Limit, Stop};
use crate::rows::{lowest_row, table_len};
use frame_arena::Frames;
use frame_sets::{Bitmap, ZoneFault, Zones};
use frame_table::{View, count_free};
use image_format::Area;
use machine::{Dump, Hardware, Parts, set_fresh, set_slots};
use page_core::NoMemory;
use std::alloc::Global;

/// The most page frames that a machine has.
const MOST_FRAMES: u64 = 65536;

/// The largest number that the last slot of an area can have.
const LAST_SLOT: u32 = 131071;

/// The number of moves that one list frame of a resume serves.
const MOVES_A_LIST_FRAME: u32 = 85;

/// What is known of an image's machine while the numbers of its saved page frames are read.
#[derive(Drop)]
pub struct Plan<'a> {
    pub heading: Heading,
    pub layout: Layout<'a>,
    pub(crate) zones: Zones,
    pub(crate) saved: Bitmap,
}

impl<'a> Plan<'a> {
    ghost use Rattle.std.specs.Prelude.{◌≡◌, [], IfOk, IfErr, OnOk, Contains};
    ghost use Rattle.definitions.specs.FrameSets.{inserted};
    ghost use Rattle.definitions.specs.Zones.{numbers};
    ghost use Rattle.image_machine.specs.Layouts.{slots_of};
    ghost use Rattle.image_machine.specs.Limits.{PassesAtLast, StopsAtLast, StopsAtOnce, PassesAtOnce, HasNoRoom};
    ghost use Rattle.image_machine.specs.Limits.{AreTables};
    ghost use Rattle.plain_machine.specs.Machine.{IsHardware};
    ghost use Rattle.std.specs.Prelude.{ℕ};
    ghost use Rattle.image_machine.specs.Loaders.{IsLoaderFor, hardware_with};
    ghost use Rattle.image_machine.specs.Machines.{PassesByTables};
    ghost use Rattle.image_machine.specs.Plans.{IsPlan};
    ghost use Rattle.machine.specs.HardFault.{hard_fault};
    ghost use Rattle.machine.specs.declared.hardware.HardFault.{HardFault};
    ghost use Rattle.std.specs.Prelude.{None, Some};
    ghost use Rattle.image_machine.specs.declared.limit.Limit.TheVariants as limit;

    /// Returns a plan for an image of which no saved page frame is known yet.
    #[inline(never)]
    pub fn of(alloc: Global, heading: &Heading, layout: Layout<'a>) -> Result<Plan<'a>, Stop>
        ensures plan { IfOk result IsPlan }
        ensures heading { IfOk result (λ plan. plan.heading ≡ heading.now) }
        ensures layout { IfOk result (λ plan. plan.layout ≡ layout.entry) }
        ensures none { IfOk result (λ plan. plan.saved.members ≡ []) }
        ensures stopped { IfErr result (StopsAtOnce heading.now layout.entry) }
    {
        is_small(heading)?;
        let zones = zones_of(heading, &layout)?;
        begins_at_header(&layout)?;
        let saved = Bitmap::create(alloc, &zones)?;
        Ok(Plan {
            heading: *heading,
            layout,
            zones,
            saved,
        })
    }

    /// Adds the number of a page frame that was saved.
    pub fn add(&mut self, number: u64) -> Result<(), Limit>
        requires { IsPlan self.old }
        ensures plan { IsPlan self.new }
        ensures added { OnOk result (self.new.saved.members ≡ inserted self.old.saved.members number) }
        ensures valid { OnOk result (Contains (numbers self.old.zones) number) }
        ensures outside { IfErr result (λ why. (why ≡ limit.Outside number)
            × (Contains (numbers self.old.zones) number → ⊥)) }
        ensures heading { self.new.heading ≡ self.old.heading }
        ensures layout { self.new.layout ≡ self.old.layout }
        ensures zones { self.new.zones ≡ self.old.zones }
    {
        if number >= u64::from(self.zones.top()) {
            return Err(Limit::Outside { number });
        }
        let p = number as u32;
        if !self.zones.valid(p) {
            return Err(Limit::Outside { number });
        }
        self.saved.set(p);
        Ok(())
    }

    /// Returns the loader of an image, once all its saved page frames were added.
    #[inline(never)]
    pub fn loader(&self, alloc: Global) -> Result<Dump, Stop>
        requires { IsPlan self.now }
        ensures loader { IfOk result (λ dump.
            IsLoaderFor self.now.heading self.now.layout self.now.saved.members dump.hw dump.frames) }
        ensures stopped { IfErr result (StopsAtLast self.now.heading self.now.layout self.now.saved.members) }
    {
        let hw = self.hardware()?;
        let frames = fresh_frames(alloc, &hw, &self.heading.area)?;
        has_room(&hw, &frames, self.saved.len())?;
        Ok(Dump { hw, frames })
    }

    /// Returns the machine whose tables lie in unsaved page frames.
    #[inline(never)]
    pub(crate) fn hardware(&self) -> Result<Hardware, Limit>
        requires { IsPlan self.now }
        ensures hardware { IfOk result (λ hw.
            hw ≡ hardware_with self.now.heading self.now.layout hw.frame_table hw.slot_table) }
        ensures tables { IfOk result (λ hw.
            AreTables self.now.heading self.now.layout self.now.saved.members hw.frame_table hw.slot_table) }
        ensures is { IfOk result IsHardware }
        ensures passed { IfErr result (PassesAtLast self.now.heading self.now.layout self.now.saved.members) }
        ensures by_tables { IfErr result (PassesByTables self.now.heading self.now.layout self.now.saved.members) }
    {
        let (frame_table, slot_table) = self.tables(self.slots())?;
        self.hardware_with(frame_table, slot_table)
    }

    /// Returns the machine whose tables begin at these page frames.
    pub(crate) fn hardware_with(&self, frame_table: u32, slot_table: u32) -> Result<Hardware, Limit>
        requires { IsPlan self.now }
        ensures hardware { IfOk result (λ hw.
            hw ≡ hardware_with self.now.heading self.now.layout frame_table slot_table) }
        ensures is { IfOk result IsHardware }
        ensures none { OnOk result
            (hard_fault (hardware_with self.now.heading self.now.layout frame_table slot_table) ≡ None) }
        ensures refused { IfErr result (λ why. (fault : HardFault) × ((why ≡ limit.Hardware fault)
            × (hard_fault (hardware_with self.now.heading self.now.layout frame_table slot_table) ≡ Some fault))) }
    {
        let slots = self.slots();
        let whole = [(0, slots, 0)];
        let parts = Parts {
            zones: self.zones.as_slice(),
            slots,
            frame_table,
            slot_table,
            regions: &[],
            ident: self.heading.ident,
            hw_sig: self.heading.hw_sig,
            extents: given_or(self.layout.extents, &whole),
        };
        match Hardware::of(&parts) {
            Ok(hw) => Ok(hw),
            Err(fault) => Err(Limit::Hardware(fault)),
        }
    }

    /// Returns how many slots the area has.
    fn slots(&self) -> u32
        requires { IsPlan self.now }
        ensures { result ≡ slots_of self.now.heading }
    {
        self.heading.area.last + 1
    }

    /// Returns the first page frames of the frame table and of the slot table.
    fn tables(&self, slots: u32) -> Result<(u32, u32), Limit>
        requires plan { IsPlan self.now }
        requires slots { slots ≡ slots_of self.now.heading }
        ensures tables { IfOk result (λ tables.
            AreTables self.now.heading self.now.layout self.now.saved.members tables.0 tables.1) }
        ensures none { IfErr result (λ why. (why ≡ limit.NoRoom)
            × HasNoRoom self.now.heading self.now.layout self.now.saved.members) }
    {
        let frames = table_len(self.zones.top());
        let Some(frame_table) = lowest_row(&self.zones, &self.saved, frames, (0, 0)) else {
            return Err(Limit::NoRoom);
        };
        let row = (frame_table, frames);
        match lowest_row(&self.zones, &self.saved, table_len(slots), row) {
            Some(slot_table) => Ok((frame_table, slot_table)),
            None => Err(Limit::NoRoom),
        }
    }
}

/// Returns the given extents, or else `one`.
fn given_or<'a>(given: &'a [(u32, u32, u32)], one: &'a [(u32, u32, u32)]) -> &'a [(u32, u32, u32)]
    requires { (slots : ℕ) × (one.now ≡ (0, slots, 0) ∷ []) }
    ensures { (slots : ℕ) → one.now ≡ (0, slots, 0) ∷ [] → result.now ≡ extents_or_one given.now slots }
{
    match given {
        [] => one,
        _ => given,
    }
}

/// Checks that neither the memory nor the area is larger than a machine allows.
fn is_small(heading: &Heading) -> Result<(), Limit>
    ensures small { OnOk result (IsSmall heading.now) }
    ensures passed { IfErr result (λ why. (layout : Layout) → PassesAtOnce heading.now layout why) }
{
    let pages = heading.physpages;
    if pages > MOST_FRAMES {
        return Err(Limit::Memory { pages });
    }
    let last = heading.area.last;
    if last > LAST_SLOT {
        return Err(Limit::Slots { last });
    }
    Ok(())
}

/// Returns the given zones, or else the one of all page frames.
fn zones_of(heading: &Heading, layout: &Layout<'_>) -> Result<Zones, Limit>
    requires { heading.now.physpages ≤ 65536 }
    ensures zones { IfOk result (λ zones. zones ≡ zones_of heading.now layout.now) }
    ensures pages { IfOk result (λ zones. length (numbers zones) ≡ heading.now.physpages) }
    ensures passed { IfErr result (PassesAtOnce heading.now layout.now) }
{
    let pages = heading.physpages;
    let zones = match zones_given(layout.zones, pages as u32) {
        Ok(zones) => zones,
        Err(fault) => return Err(Limit::Zones(fault)),
    };
    let count = zones.count();
    if u64::from(count) != pages {
        return Err(Limit::Count { count, pages });
    }
    Ok(zones)
}

fn zones_given(given: &[(u32, u32)], pages: u32) -> Result<Zones, ZoneFault>
    ensures zones { IfOk result (λ zones. zones ≡ zones_or_one given.now pages) }
    ensures refused { IfErr result (Refuses (zones_or_one given.now pages)) }
{
    match given {
        [] => Zones::of(&[(0, pages)]),
        _ => Zones::of(given),
    }
}

/// Checks that slot 0 lies on the block of the area's header.
fn begins_at_header(layout: &Layout<'_>) -> Result<(), Limit>
    ensures header { OnOk result ((heading : Heading) →
        (extent_at (extents_of heading layout.now) 0).2 ≡ layout.now.offset) }
    ensures passed { IfErr result (λ why. (heading : Heading) → PassesAtOnce heading layout.now why) }
{
    let block = first_block(layout.extents);
    let offset = layout.offset;
    if block != offset {
        return Err(Limit::Offset { block, offset });
    }
    Ok(())
}

/// Returns the block of slot 0.
fn first_block(extents: &[(u32, u32, u32)]) -> u32
    ensures { (slots : ℕ) → result ≡ (extent_at (extents_or_one extents.now slots) 0).2 }
{
    match extents {
        [] => 0,
        [(_, _, block), ..] => *block,
    }
}

/// Returns the memory of a boot.
fn fresh_frames(alloc: Global, hw: &Hardware, area: &Area) -> Result<Frames, NoMemory>
    ensures fresh { IfOk result (λ frames. frames ≡ fresh_memory hw.now (slot_of_area (Ok area.now))) }
    ensures fits { IfOk result (Fits hw.now) }
{
    let mut frames = Frames::create(alloc, hw.zones().top())?;
    set_fresh(&mut frames, hw);
    set_slots(&mut frames, hw, &Ok(*area));
    Ok(frames)
}

/// Checks that as many page frames are free as a resume of `saved` pages needs.
fn has_room(hw: &Hardware, frames: &Frames, saved: u32) -> Result<(), Limit>
    requires size { length frames.now ≡ top hw.now.zones }
    ensures room { OnOk result (need saved ≤ length (unused hw.now frames.now)) }
    ensures few { IfErr result (λ why. (why ≡ limit.TooFew (length (unused hw.now frames.now)) (need saved))
        × (length (unused hw.now frames.now) < need saved)) }
{
    let view = View {
        frames,
        zones: hw.zones(),
        table: hw.frame_table(),
    };
    let have = count_free(&view);
    let need = u64::from(saved) + u64::from(saved.div_ceil(MOVES_A_LIST_FRAME)) + 1;
    if u64::from(have) < need {
        return Err(Limit::TooFew { have, need });
    }
    Ok(())
}
