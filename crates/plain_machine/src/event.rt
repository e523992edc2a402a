use page_core::Format;

/// What happens to the machine. One event of the core is one step: it makes at most one call of the disk.
#[derive(Clone, Copy)]
pub enum Event {
    /// The machine is switched on.
    Boot(BootFrom),
    /// A hibernation: memory is to be saved, and the machine switched off.
    Hibernate(Format),
    /// A suspend: memory is to be saved, and the machine to sleep with its memory kept.
    Suspend(Format),
    /// A sleeping machine is to go on.
    Wake,
    /// The machine is to make certain that no image is on the disk.
    Settle,
    /// Cached page frames are to be dropped until the given number of saveable ones are left.
    Shrink(u64),
    /// The machine is switched on, and the image on the disk resumed.
    Resume(Loader, IdentCheck),
    /// One step of an operation.
    Step(Actor),
    /// A task, 1 to 64, asks for something.
    Task(u32, TaskOp),
    /// The power fails. The number picks what the disk keeps.
    Cut(u64),
    /// Calls of the disk are to fail: the calls number `first` to `first + count - 1` from now.
    Arm { first: u32, count: u32, pick: u64 },
}

/// What a task asks for. A page frame is named by its number.
#[derive(Clone, Copy)]
pub enum TaskOp {
    /// A free page frame, zeroed.
    Claim(u32),
    /// One of the task's page frames becomes free.
    Release(u32),
    /// Word K of page frame P becomes V: Store(P, K, V).
    Store(u32, u32, u64),
    /// Word K of page frame P: Show(P, K).
    Show(u32, u32),
    /// One of the task's page frames may be dropped from now on.
    Cache(u32),
    /// The page of a page frame is written to a slot of the swap area.
    Out(u32),
    /// The page in one of the task's slots is read into a page frame: TakeIn(SLOT, P).
    TakeIn(u32, u32),
}

/// The actor whose operation makes a step.
#[derive(Clone, Copy, Debug, PartialEq, Eq)]
pub enum Actor {
    Core,
    Task(u32),
}

/// The memory that a boot begins with.
#[derive(Clone, Copy, Debug, PartialEq, Eq)]
pub enum BootFrom {
    /// Fresh memory.
    Fresh,
    /// The memory of the dump that the machine was made from.
    Kept,
}

/// The memory that a resume is loaded into.
#[derive(Clone, Copy, Debug, PartialEq, Eq)]
pub enum Loader {
    /// The loader holds the page frames of these ranges.
    Ranges(Ranges),
    /// The loader is the dump that the machine was made from.
    Table,
}

/// At most 8 ranges of page frame numbers, both ends included. Those past `count` are (0, 0).
#[derive(Clone, Copy, Debug, PartialEq, Eq)]
pub struct Ranges {
    pub count: u32,
    pub list: [(u32, u32); 8],
}

/// Whether a resume compares the identity in the image's header with the machine's.
#[derive(Clone, Copy, Debug, PartialEq, Eq)]
pub enum IdentCheck {
    Compare,
    Skip,
}
