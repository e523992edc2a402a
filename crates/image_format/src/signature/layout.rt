//! The offsets in bytes of a header block's fields, by the kernel's names; and the flags of its mark.

/// `union swap_header`, `info` of version 1 (include/linux/swap.h).
pub(crate) const VERSION: usize = 1024;

pub(crate) const LAST_PAGE: usize = 1028;

pub(crate) const NR_BADPAGES: usize = 1032;

pub(crate) const BADPAGES: usize = 1536;

/// The most bad pages that a header block has room for, before the bytes of `struct swsusp_header`.
pub const MOST_BADPAGES: usize = 630;

/// `struct swsusp_header` (kernel/power/swap.c), which ends with the block.
pub(crate) const HW_SIG: usize = 4056;

pub(crate) const IMAGE: usize = 4064;

pub(crate) const FLAGS: usize = 4072;

pub(crate) const ORIG_SIG: usize = 4076;

pub(crate) const SIG: usize = 4086;

/// The flag of an image that isn't compressed (kernel/power/power.h).
pub const SF_NOCOMPRESS_MODE: u32 = 2;

/// The flag of a header whose `hw_sig` counts (kernel/power/power.h).
pub const SF_HW_SIG: u32 = 8;

/// The flag of an image without data pages for its pages of zeros (this project's own).
pub const SF_SKIPS_ZEROS: u32 = 256;
