//! The lock on an open file or device (flock(2)), which mkswap, mkfs and udev take on a block device too.
use std::fs::{File, TryLockError};
use std::io::{self, ErrorKind};

/// The error number of a system that has no more locks, which a file server without a lock manager returns (ENOLCK).
const NO_LOCKS: i32 = 37;

/// Locks a file exclusively. A file that another process has locked is refused.
pub(crate) fn lock_exclusive(file: &File) -> io::Result<()> {
    locked(file.try_lock())
}

/// Locks a file shared with other readers. A file that another process has locked exclusively is refused.
pub(crate) fn lock_shared(file: &File) -> io::Result<()> {
    locked(file.try_lock_shared())
}

/// Returns the result of a lock. If the system has no locks, the file is accepted without one.
fn locked(answer: Result<(), TryLockError>) -> io::Result<()> {
    match answer {
        Ok(()) => Ok(()),
        Err(TryLockError::WouldBlock) => Err(ErrorKind::WouldBlock.into()),
        Err(TryLockError::Error(error)) if has_no_locks(&error) => Ok(()),
        Err(TryLockError::Error(error)) => Err(error),
    }
}

/// Returns whether an error says that the file's system has no locks.
pub(crate) fn has_no_locks(error: &io::Error) -> bool {
    error.kind() == ErrorKind::Unsupported || error.raw_os_error() == Some(NO_LOCKS)
}
