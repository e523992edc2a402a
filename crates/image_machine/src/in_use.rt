ghost use Rattle.std.specs.Prelude.{◌≡◌, ℕ, length};
ghost use Rattle.std.specs.List.{range_with_len};
ghost use Rattle.definitions.specs.Zones.{top};
ghost use Rattle.plain_machine.specs.FreshMemory.{with_each_entry};
ghost use Rattle.plain_machine.specs.Machine.{is_of_table, is_table_frame};
ghost use Rattle.image_machine.specs.Machines.{entry_with};

use crate::rows::{is_unsaved, table_len};
use bitflags::Flags;
use frame_arena::Frames;
use frame_sets::Bitmap;
use frame_table::{PageFlags, set_entry};
use machine::Hardware;

/// The flags of a free page frame, and those of one in use without any flag.
const FREE: u16 = 1;

const IN_USE: u16 = 0;

/// Sets the frame table's entries: the saved page frames and those of the tables are in use, and all others are free.
pub(crate) fn set_in_use(frames: &mut Frames, hw: &Hardware, saved: &Bitmap)
    requires { length frames.old ≡ top hw.now.zones }
    ensures set { frames.new ≡ with_each_entry (entry_with hw.now saved.now.members)
        (range_with_len 0 (top hw.now.zones)) hw.now.frame_table frames.old }
    ensures len { length frames.new ≡ length frames.old }
{
    for p in 0..hw.zones().top() {
        let flags = PageFlags::from_bits_retain(flags_with(hw, saved, p));
        set_entry(frames, hw.frame_table(), p, flags, 0);
    }
}

/// Returns the flags of a page frame.
#[tactic(auto, unfolding(crate::specs::Machines::entry_with))]
fn flags_with(hw: &Hardware, saved: &Bitmap, p: u32) -> u16
    ensures { result ≡ entry_with hw.now saved.now.members p }
{
    if is_unsaved(hw.zones(), saved, p) && !is_table_frame(hw, p) {
        FREE
    } else {
        IN_USE
    }
}

/// Returns whether a page frame belongs to one of the tables.
fn is_table_frame(hw: &Hardware, p: u32) -> bool
    ensures { result ≡ is_table_frame hw.now p }
{
    is_of_table(hw.frame_table(), hw.zones().top(), p)
        || is_of_table(hw.slot_table(), hw.slots(), p)
}

/// Returns whether page frame `p` belongs to a table with `entries` entries.
fn is_of_table(first: u32, entries: u32, p: u32) -> bool
    ensures { result ≡ is_of_table first entries p }
{
    first <= p && p - first < table_len(entries)
}
