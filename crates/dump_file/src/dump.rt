use thiserror::Error;

/// What is wrong with a dump.
#[derive(Clone, Copy, Debug, PartialEq, Eq)]
pub enum DumpKind {
    /// The input ends before the byte that is wanted.
    Short,
    /// The input doesn't begin with the mark of a version.
    Magic,
    /// The number of slots is out of range, or the tables lie on page frames where they can't.
    Header,
    Zone,
    Extent,
    /// There are more records than valid page frames, or a record's page frame number isn't valid.
    Frame,
    /// A record's page frame number isn't above the one before.
    Order,
    /// A byte follows the last record.
    Extra,
    /// A table frame is at fault.
    Tables,
}

/// The first fault of a dump. `at` is a byte's place, or for `Tables` a page frame number.
#[derive(Clone, Copy, Debug, PartialEq, Eq, Error)]
#[error("dump {kind:?} at {at}")]
pub struct DumpFault {
    pub kind: DumpKind,
    pub at: u64,
}

/// Why no dump was read.
#[derive(Clone, Copy, Debug, PartialEq, Eq, Error)]
pub enum DumpStop {
    #[error("{0}")]
    Fault(DumpFault),
    #[error("the source failed")]
    SourceFault,
    #[error("no memory")]
    NoMemory,
}
