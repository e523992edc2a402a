//! The numbers of include/swsusp.h that several functions share.

/// The codes that the functions return.
pub(crate) const OK: u32 = 0;

pub(crate) const BAD_STATE: u32 = 1;

pub(crate) const BAD_PAGE: u32 = 2;

pub(crate) const BAD_MEMORY: u32 = 3;

pub(crate) const BAD_PRESENT: u32 = 4;

pub(crate) const BAD_HEADER: u32 = 5;

pub(crate) const BAD_IDENTITY: u32 = 6;

pub(crate) const BAD_WORDS: u32 = 7;

/// The kinds of a call.
pub(crate) const SYNC: u32 = 1;

pub(crate) const READ: u32 = 2;

pub(crate) const WRITE: u32 = 3;

pub(crate) const PLACE: u32 = 4;

pub(crate) const DONE: u32 = 5;

pub(crate) const REFUSED: u32 = 6;

pub(crate) const FAILED: u32 = 7;
