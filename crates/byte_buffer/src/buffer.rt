ghost use Rattle.std.specs.Prelude.{◌≡◌, ◌+◌, ◌≤◌, ℕ, List, [], ◌++◌, length};

use arrayvec::ArrayVec;
use std::marker::Model;

/// At most `N` bytes. A contract sees them as a list.
#[derive(Drop)]
pub struct ByteBuffer<const N: usize> {
    bytes: ArrayVec<u8, N>,
}

impl<const N: usize> Model for ByteBuffer<N> {
    ghost Value = { List ℕ };

    ghost view = { λ buffer. buffer.bytes.items };
}

impl<const N: usize> ByteBuffer<N> {
    pub fn new() -> ByteBuffer<N>
        ensures { result ≡ [] }
    {
        ByteBuffer {
            bytes: ArrayVec::new(),
        }
    }

    pub fn as_bytes(&self) -> &[u8]
        ensures { result.now ≡ self.now }
    {
        self.bytes.as_slice()
    }

    /// Adds some bytes.
    pub fn put(&mut self, bytes: &[u8])
        requires { length self.old + length bytes.now ≤ N }
        ensures added { self.new ≡ self.old ++ bytes.now }
        ensures len { length self.new ≡ length self.old + length bytes.now }
    {
        self.bytes.try_extend_from_slice(bytes).unwrap();
    }
}
