//! A buffer in which the bytes of a text or a file are put together.
#![tactic(auto)]

mod buffer;

pub use buffer::ByteBuffer;
