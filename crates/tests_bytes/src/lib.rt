//! Tests of the crates that read and write bytes: header blocks, info pages and map pages, and the LZO1X streams and
//! checksum that compressed images need. Each is a worked example from outside, which shows that the definitions are
//! those of Linux.
#![tactic(auto)]

#[cfg(test)]
mod checksums;
#[cfg(test)]
mod expansions;
#[cfg(test)]
mod header_blocks;
#[cfg(test)]
mod info_pages;
#[cfg(test)]
mod map_pages;
