//! The states of page frames: the entries of the frame table.

mod flags;

ghost use Rattle.std.specs.Prelude.{◌≡◌, ℕ, ◌+◌, ◌*◌, ◌/◌, ◌%◌, ◌<◌, length};
ghost use Rattle.definitions.specs.Tables.{entry_at, with_entry, page_flags, owner_of, entry_of};
ghost use Rattle.frame_table.specs.Flags.{bits_of};

use bitflags::Flags;
use definitions::ENTRIES_PER_FRAME;
pub use flags::PageFlags;
use frame_arena::Frames;

/// Returns the flags and the owner of page frame `p`, from the frame table that begins at page frame `table`.
#[tactic(auto, unfolding(definitions::specs::Tables::entry_at))]
pub fn entry(frames: &Frames, table: u32, p: u32) -> (PageFlags, u16)
    requires { table + p / ENTRIES_PER_FRAME < length frames.now }
    ensures flags { bits_of result.0 ≡ page_flags (entry_at frames.now table p) }
    ensures owner { result.1 ≡ owner_of (entry_at frames.now table p) }
{
    let entry = frames.u32_at(entry_frame(frames, table, p), entry_offset(p));
    (
        PageFlags::from_bits_retain((entry & 0xffff) as u16),
        (entry >> 16) as u16,
    )
}

/// Sets the state of page frame `p`, its 4 bytes in the frame table, and leaves the rest.
#[tactic(auto, unfolding(definitions::specs::Tables::with_entry))]
pub fn set_entry(frames: &mut Frames, table: u32, p: u32, flags: PageFlags, owner: u16)
    requires { table + p / ENTRIES_PER_FRAME < length frames.old }
    ensures entry { frames.new ≡ with_entry frames.old table p (entry_of (bits_of flags) owner) }
    ensures len { length frames.new ≡ length frames.old }
{
    let entry = u32::from(owner) << 16 | u32::from(flags.bits());
    frames.put_u32(entry_frame(frames, table, p), entry_offset(p), entry);
}

/// Returns the page frame of the table that has the entry of `p`.
fn entry_frame(frames: &Frames, table: u32, p: u32) -> u32
    requires { table + p / ENTRIES_PER_FRAME < length frames.now }
    ensures { result ≡ table + p / ENTRIES_PER_FRAME }
{
    let count = frames.len();
    prove!(table < count && p / ENTRIES_PER_FRAME < count - table);
    table + p / ENTRIES_PER_FRAME
}

/// Returns the offset of the entry of `p` in its page frame of the table.
fn entry_offset(p: u32) -> usize
    ensures { result ≡ 4 * (p % ENTRIES_PER_FRAME) }
{
    (4 * (p % ENTRIES_PER_FRAME)) as usize
}
