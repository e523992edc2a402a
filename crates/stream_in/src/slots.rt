ghost use Rattle.swap_slots.specs.Table.{LiesIn, Matches};

use crate::area::MOST_SLOTS;
use frame_arena::Frames;
use image_format::Area;
use page_core::NoMemory;
use std::alloc::Global;
use swap_slots::{FreeRuns, SlotEntry, SlotTable};

/// The number of page frames of the largest slot table.
const TABLE_FRAMES: u32 = 128;

/// A slot table in page frames of its own, and the runs of its free slots.
#[derive(Drop)]
pub(crate) struct SlotMemory {
    pub frames: Frames,
    pub table: SlotTable,
    pub runs: FreeRuns,
    pub ghost lies: { LiesIn frames table },
    pub ghost matches: { Matches frames table runs },
}

impl SlotMemory {
    ghost use Rattle.std.specs.Prelude.{◌<◌, IfOk};
    ghost use Rattle.stream_in.specs.Area.{HasBounds};
    ghost use Rattle.stream_in.specs.Slots.{IsUnused, HasSlotsOf};

    /// Takes memory for the largest slot table. The table has no slot yet.
    pub(crate) fn create(alloc: Global) -> Result<SlotMemory, NoMemory>
        ensures { IfOk result IsUnused }
    {
        Ok(SlotMemory {
            frames: Frames::create(alloc, TABLE_FRAMES)?,
            table: SlotTable { first: 0, slots: 0 },
            runs: FreeRuns::create(alloc, MOST_SLOTS)?,
        })
    }

    /// Makes the slot table of an area, in which each slot that the area can give is free: all except the header's and
    /// the bad pages.
    pub(crate) fn with_area(self, area: &Area) -> SlotMemory
        requires unused { IsUnused self }
        requires room { area.now.last < 131072 }
        requires bounds { HasBounds area.now }
        ensures { HasSlotsOf area.now result }
    {
        let SlotMemory {
            mut frames,
            mut runs,
            ..
        } = self;
        let table = SlotTable {
            first: 0,
            slots: area.last + 1,
        };
        table.set(&mut frames, 0, SlotEntry::Bad);
        for &slot in &area.bad[..area.count as usize] {
            table.set(&mut frames, slot, SlotEntry::Bad);
        }
        runs.rebuild(&frames, &table);
        SlotMemory {
            frames,
            table,
            runs,
        }
    }
}
