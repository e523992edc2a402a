//! What a boot makes of a machine's memory, without a disk: a dump into which an image can be resumed.

ghost use Rattle.std.specs.Prelude.{◌≡◌, ◌<◌, length, IfOk, OnOk, OnErr};
ghost use Rattle.std.specs.List.{range_with_len};
ghost use Rattle.definitions.specs.Tables.{entry_at};
ghost use Rattle.definitions.specs.Zones.{top};
ghost use Rattle.plain_machine.specs.Machine.{Fits, IsHardware};
ghost use Rattle.plain_machine.specs.FreshMemory.{fresh_memory, with_each_entry};
ghost use Rattle.swap_slots.specs.Entries.{word_of};
ghost use Rattle.swap_slots.specs.Table.{LiesIn};
ghost use Rattle.dump_tools.specs.KeptSlots.{kept_entry, kept_slot};

use frame_arena::Frames;
use machine::{Dump, Hardware, set_fresh, slot_table};
use page_core::NoMemory;
use std::alloc::Global;
use swap_slots::{SlotEntry, SlotTable};

/// Makes a dump's memory that of the same machine when it has just booted: no task has a page frame or a slot, and the
/// bad slots are those that were bad. If memory is refused, nothing changes.
pub fn make_fresh(alloc: Global, dump: &mut Dump) -> Result<(), NoMemory>
    requires { length dump.old.frames ≡ top dump.old.hw.zones }
    ensures fresh { OnOk result (dump.new.frames ≡ fresh_memory dump.old.hw (kept_slot dump.old.hw dump.old.frames)) }
    ensures fits { OnOk result (Fits dump.new.hw dump.new.frames) }
    ensures hardware { dump.new.hw ≡ dump.old.hw }
    ensures err { OnErr result (dump.new.frames ≡ dump.old.frames) }
{
    dump.frames = fresh_frames(alloc, &dump.hw, &dump.frames)?;
    Ok(())
}

/// Returns the fresh memory of a machine that had this memory.
fn fresh_frames(alloc: Global, hw: &Hardware, before: &Frames) -> Result<Frames, NoMemory>
    requires { length before.now ≡ top hw.now.zones }
    ensures fresh { IfOk result (λ frames. frames ≡ fresh_memory hw.now (kept_slot hw.now before.now)) }
    ensures hardware { IsHardware hw.now }
{
    let mut frames = Frames::create(alloc, hw.zones().top())?;
    set_fresh(&mut frames, hw);
    keep_bad_slots(&mut frames, hw, before);
    Ok(frames)
}

/// Sets the slot table's entries: slot 0 and the slots that were bad are bad, and all others are free.
fn keep_bad_slots(frames: &mut Frames, hw: &Hardware, before: &Frames)
    requires before { length before.now ≡ top hw.now.zones }
    requires size { length frames.old ≡ top hw.now.zones }
    ensures { frames.new ≡ with_each_entry (kept_slot hw.now before.now) (range_with_len 0 hw.now.slots)
        hw.now.slot_table frames.old }
{
    let table = slot_table(hw);
    for slot in 0..table.slots {
        let entry = kept_entry(&table, before, slot);
        table.set(frames, slot, entry);
    }
}

/// Returns the entry of a slot in fresh memory.
fn kept_entry(table: &SlotTable, before: &Frames, slot: u32) -> SlotEntry
    requires slot { slot < table.now.slots }
    requires table { LiesIn before.now table.now }
    ensures { word_of result ≡ kept_entry slot (entry_at before.now table.now.first slot) }
{
    if slot == 0 {
        return SlotEntry::Bad;
    }
    match table.entry(before, slot) {
        SlotEntry::Bad => SlotEntry::Bad,
        _ => SlotEntry::Free,
    }
}
