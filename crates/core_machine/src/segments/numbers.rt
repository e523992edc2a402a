ghost use Rattle.std.specs.Prelude.{◌≡◌, ◌+◌, ◌≤◌, length};
ghost use Rattle.definitions.specs.Bytes.{number_at};

use byteorder::{ByteOrder, LittleEndian};

/// Returns the number of 2 bytes at a place.
#[tactic(auto, unfolding(definitions::specs::Bytes::number_at))]
pub(crate) fn half(bytes: &[u8], at: usize) -> u16
    requires { at + 2 ≤ length bytes.now }
    ensures { result ≡ number_at 2 bytes.now at }
{
    LittleEndian::read_u16(&bytes[at..])
}

/// Returns the number of 4 bytes at a place.
#[tactic(auto, unfolding(definitions::specs::Bytes::number_at))]
pub(crate) fn word(bytes: &[u8], at: usize) -> u32
    requires { at + 4 ≤ length bytes.now }
    ensures { result ≡ number_at 4 bytes.now at }
{
    LittleEndian::read_u32(&bytes[at..])
}

/// Returns the number of 8 bytes at a place.
#[tactic(auto, unfolding(definitions::specs::Bytes::number_at))]
pub(crate) fn xword(bytes: &[u8], at: usize) -> u64
    requires { at + 8 ≤ length bytes.now }
    ensures { result ≡ number_at 8 bytes.now at }
{
    LittleEndian::read_u64(&bytes[at..])
}
