//! Prints what a dump says of its machine, one fact per line.

mod printing;
mod text;

ghost use Rattle.std.specs.Prelude.{◌≡◌, ◌≤◌, length, OnOk, OnErr};
ghost use Rattle.definitions.specs.Disk.{HasRisen};
ghost use Rattle.definitions.specs.Streams.{TakesAll, TakesFront};
ghost use Rattle.definitions.specs.Zones.{top};
ghost use Rattle.dump_tools.specs.Texts.{facts_text};

use crate::facts::facts_of;
use byte_streams::Sink;
use machine::Dump;
use page_core::Failed;
use printing::print;

/// Prints the facts of a dump, one per line: a key, and its value's numbers or text. Nothing is flushed.
pub fn show<S: Sink>(sink: &mut S, dump: &Dump) -> Result<(), Failed>
    requires { length dump.now.frames ≡ top dump.now.hw.zones }
    ensures whole { OnOk result (TakesAll (facts_text dump.now.hw dump.now.frames) (S.taken sink.old)
        (S.taken sink.new)) }
    ensures front { TakesFront (facts_text dump.now.hw dump.now.frames) (S.taken sink.old) (S.taken sink.new) }
    ensures counted { S.faults sink.old ≤ S.faults sink.new }
    ensures cause { OnErr result (HasRisen (S.faults sink.old) (S.faults sink.new)) }
{
    print(sink, facts_of(dump).as_slice())
}
