ghost use Rattle.std.specs.Prelude.{◌≡◌, ◌+◌, ◌≤◌, ◌++◌, length};
ghost use Rattle.dump_file.specs.Written.{number_bytes};

use byte_buffer::ByteBuffer;
use byteorder::{ByteOrder, LittleEndian};

/// The most bytes that a dump has before its records: 424, 16 zones, 64 extents after two numbers, and the number of
/// records.
const MOST_BYTES: usize = 1332;

/// The front of a dump that is being written.
pub(crate) type Head = ByteBuffer<MOST_BYTES>;

/// Adds a number of 4 bytes.
#[tactic(auto, unfolding(crate::specs::Written::number_bytes))]
pub(crate) fn add_number(head: &mut Head, n: u32)
    requires { length head.old + 4 ≤ 1332 }
    ensures added { head.new ≡ head.old ++ number_bytes n }
    ensures len { length head.new ≡ length head.old + 4 }
{
    let mut number = [0; 4];
    LittleEndian::write_u32(&mut number, n);
    head.put(&number);
}
