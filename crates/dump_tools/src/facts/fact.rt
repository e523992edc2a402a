use byte_streams::Name;
use page_core::Format;

/// What one line says of a machine and its memory.
#[derive(Clone, Copy)]
pub enum Fact {
    /// The number of slots.
    Slots(u32),
    /// The first page frame of the frame table.
    FrameTable(u32),
    /// The first page frame of the slot table.
    SlotTable(u32),
    /// The first page frame of a zone, and the number of its page frames.
    Zone(u32, u32),
    /// The first page frame of a region, the number of its page frames, and their flags.
    Region(u32, u32, u32),
    /// The first slot of an extent, the number of its slots, and its first block.
    Extent(u32, u32, u32),
    /// The hardware signature.
    Signature(u32),
    VersionCode(u32),
    Name(Name, [u8; 65]),
    /// The number of saveable page frames.
    SaveableFrames(u32),
    /// The number of free page frames, and how many a hibernation needs.
    FreeFrames(u32),
    NeededFrames(u32),
    /// A task, and the number of its page frames.
    OwnedFrames(u32, u32),
    /// The number of free slots.
    FreeSlots(u32),
    /// The number of bad slots.
    BadSlots(u32),
    /// A task, and the number of its slots.
    OwnedSlots(u32, u32),
    /// How many page frames an image of a format saves, how many of them have data, and how many pages its stream has.
    Image(Format, u32, u32, u32),
    /// The number of free slots that a hibernation in a format needs.
    NeededSlots(Format, u32),
}

impl Default for Fact {
    /// Returns the value in the unused places of a list of facts.
    fn default() -> Fact {
        Fact::Slots(0)
    }
}
