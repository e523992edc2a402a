use crate::no_swap::NoSwap;
use definitions::Field;

/// What the machine answers to an event.
#[derive(Clone, Copy)]
pub enum Reply {
    /// A claim, release, store, cache or arm was done.
    Done,
    /// An operation has made k of its steps.
    More { k: u32, of: u32 },
    /// The machine runs. `image` says whether an image is on the disk.
    Booted { image: bool },
    Word { value: u64 },
    /// The slot that a page goes to.
    Slot { slot: u32 },
    Written { slot: u32 },
    Reading { slot: u32 },
    Fetched { slot: u32 },
    /// An image of n pages is on the disk, and the machine is off.
    Hibernated { n: u32 },
    /// The call of the disk that failed, and how many of the two steps that undo it were made.
    Undo { call: UndoCall, k: u32 },
    Settled,
    /// A resume has made k steps.
    Loading { k: u32 },
    /// An image of n pages was resumed.
    Resumed { n: u32 },
    WasCut,
    Idle,
    NotOff,
    NotOn,
    NoDump,
    Frozen,
    InFlight,
    NoFrame,
    NotFree,
    NotOwner,
    Closed,
    NoSlot,
    NoSlotHere,
    NothingHeld,
    Busy { task: u32 },
    NoSwap { why: NoSwap },
    NoFrames { free: u32, need: u32 },
    NoSlots { free: u32, need: u32 },
    NoImage,
    Compressed { flags: u32 },
    HwMismatch { image: u32, own: u32 },
    NoChain,
    BadBlock { block: u64 },
    ChainEnds { map: u32 },
    Mismatch { field: Field },
    MemorySize { image: u64, own: u64 },
    BadCounts { image_pages: u64, pages: u64 },
    BadPfn { pfn: u64 },
    PfnOrder { a: u64, b: u64 },
    PfnEnd { found: u64 },
    TooFewLoaderFrames { have: u32, need: u32 },
    BadTables { frame: u32 },
    ReadFault { left: Left },
    WriteFault { left: Left },
    SyncFault { left: Left },
    Sleeping,
    /// An image of n pages is on the disk, and the machine sleeps.
    Asleep { n: u32 },
    NotAsleep,
    Woken,
    /// How many page frames were dropped from the cache, and how many saveable ones are left.
    Shrunk { dropped: u32, left: u32 },
}

/// What a failed operation left of the image on the disk.
#[derive(Clone, Copy, Debug, PartialEq, Eq)]
pub enum Left {
    /// The operation didn't write block(0).
    Same,
    /// No image is on the disk, and a sync made that certain.
    Gone,
    /// block(0) was written, and no later sync succeeded.
    Unsure,
}

/// The call of a hibernation that failed and is undone.
#[derive(Clone, Copy, Debug, PartialEq, Eq)]
pub enum UndoCall {
    Write,
    Sync,
}
