//! The frame table and the slot table, as they lie in page frames.

use bitflags::Flags;
use frame_arena::Frames;
use frame_table::{PageFlags, entry, set_entry};
use std::test::Fail;
use swap_slots::{FreeRuns, SlotEntry, SlotTable};

#[test]
fn flags_and_an_owner(rt: HostRuntime) -> Result<(), Fail> {
    let mut frames = Frames::create(rt.alloc(), 2)?;
    assert_eq!(rt; frames.len(), 2);
    set_entry(&mut frames, 0, 1, PageFlags::empty(), 3);
    set_entry(&mut frames, 0, 1024, PageFlags::from_bits_retain(32769), 0);
    assert_eq!(rt;
        (entry(&frames, 0, 1).1, frames.word(0, 0), frames.word(1, 0)),
        (3, 196608 << 32, 32769)
    );
    Ok(())
}

/// A slot table in page frames 1 to 3.
const TABLE: SlotTable = SlotTable {
    first: 1,
    slots: 3001,
};

// Slots 0 and 5 are bad.
#[test]
fn runs_of_slots(rt: HostRuntime) -> Result<(), Fail> {
    let mut frames = Frames::create(rt.alloc(), 4)?;
    TABLE.set(&mut frames, 0, SlotEntry::Bad);
    TABLE.set(&mut frames, 5, SlotEntry::Bad);
    let mut runs = FreeRuns::create(rt.alloc(), 3001)?;
    runs.rebuild(&frames, &TABLE);
    let taken = (
        TABLE.take(&mut frames, &mut runs, SlotEntry::Task(3)),
        TABLE.take(&mut frames, &mut runs, SlotEntry::Image),
    );
    let entries = (frames.word(1, 0), frames.word(1, 1));
    TABLE.give(&mut frames, &mut runs, 1);
    let left = [runs.run(0), runs.run(1), runs.run(2), runs.run(3)];
    assert_eq!(rt; taken, (Some(1), Some(2)));
    assert_eq!(rt; entries, (131072 + (3 << 32), 65536));
    assert_eq!(rt; left, [Some((1, 1)), Some((3, 2)), Some((6, 2995)), None]);
    Ok(())
}
