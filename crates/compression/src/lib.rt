//! What a compressed image is read with: its streams of LZO1X, and its checksum.
#![tactic(auto)]

pub mod crc32;
pub mod lzo;
