use thiserror::Error;

/// The failure of a call of a disk, a source or a sink, whose count of faults has risen.
#[derive(Clone, Copy, Debug, PartialEq, Eq, Error)]
#[error("the device failed")]
pub struct Failed;

/// A refusal of memory.
#[derive(Clone, Copy, Debug, PartialEq, Eq, Error)]
#[error("no memory")]
pub struct NoMemory;
