ghost use Rattle.std.specs.Prelude.{◌≤◌, OnOk, OnErr};
ghost use Rattle.definitions.specs.Disk.{HasRisen};
ghost use Rattle.definitions.specs.Streams.{TakesAll, TakesFront};
ghost use Rattle.dump_file.specs.Written.{number_bytes};

use byte_streams::{Sink, put_all};
use byteorder::{ByteOrder, LittleEndian};
use page_core::Failed;

/// Writes a number of 4 bytes.
#[tactic(auto, unfolding(crate::specs::Written::number_bytes))]
pub(crate) fn put_number<K: Sink>(sink: &mut K, n: u32) -> Result<(), Failed>
    ensures whole { OnOk result (TakesAll (number_bytes n) (K.taken sink.old) (K.taken sink.new)) }
    ensures front { TakesFront (number_bytes n) (K.taken sink.old) (K.taken sink.new) }
    ensures counted { K.faults sink.old ≤ K.faults sink.new }
    ensures cause { OnErr result (HasRisen (K.faults sink.old) (K.faults sink.new)) }
{
    let mut number = [0; 4];
    LittleEndian::write_u32(&mut number, n);
    put_all(sink, &number)
}
