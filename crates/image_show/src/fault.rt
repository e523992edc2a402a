use thiserror::Error;

/// Why not everything was shown.
#[derive(Clone, Copy, Debug, PartialEq, Eq, Error)]
pub enum Fault {
    /// Memory was refused. Nothing was written.
    #[error("no memory")]
    NoMemory,
    /// The output failed, or memory for it was refused.
    #[error("the output failed")]
    Write,
}
