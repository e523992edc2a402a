ghost use Rattle.std.specs.Prelude.{◌≡◌, length, IfSome, IsNone, ◌↔◌};
ghost use Rattle.definitions.specs.Zones.{top};
ghost use Rattle.stream_out.specs.Bytes.{HasNoTaskSlot, IsFirstTaskSlot};

use frame_arena::Frames;
use machine::{Hardware, slot_table};
use swap_slots::SlotEntry;
use thiserror::Error;

/// The highest number of a task. The lowest is 1.
const MOST_TASKS: u32 = 64;

/// The refusal of a stream: a task has pages in swap slots, which a stream can't hold.
#[derive(Clone, Copy, Debug, PartialEq, Eq, Error)]
#[error("a task has slot {slot}")]
pub struct SlotsInUse {
    /// The lowest such slot.
    pub slot: u32,
}

/// Returns the lowest slot that a task has.
pub fn first_task_slot(frames: &Frames, hw: &Hardware) -> Option<u32>
    requires { length frames.now ≡ top hw.now.zones }
    ensures none { IsNone result ↔ HasNoTaskSlot hw.now frames.now }
    ensures first { IfSome result (IsFirstTaskSlot hw.now frames.now) }
{
    let table = slot_table(hw);
    for slot in 0..table.slots {
        if is_task(table.entry(frames, slot)) {
            return Some(slot);
        }
    }
    None
}

ghost use Rattle.std.specs.Prelude.{IsTrue};
ghost use Rattle.stream_out.specs.Bytes.{IsTaskEntry};
ghost use Rattle.swap_slots.specs.Entries.{word_of};

/// Returns whether a slot is a task's.
fn is_task(entry: SlotEntry) -> bool
    ensures { IsTrue result ↔ IsTaskEntry (word_of entry) }
{
    matches!(entry, SlotEntry::Task(task) if task >= 1 && task <= MOST_TASKS)
}
