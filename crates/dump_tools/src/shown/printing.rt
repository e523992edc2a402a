ghost use Rattle.std.specs.Prelude.{◌≤◌, OnOk, OnErr};
ghost use Rattle.std.specs.List.{flat_map};
ghost use Rattle.definitions.specs.Disk.{HasRisen};
ghost use Rattle.definitions.specs.Streams.{TakesAll, TakesFront};
ghost use Rattle.dump_tools.specs.Texts.{line_text};

use crate::facts::Fact;
use crate::shown::text::line_of;
use byte_streams::{Sink, put_all};
use page_core::Failed;

/// Writes the lines of facts.
pub(crate) fn print<S: Sink>(sink: &mut S, facts: &[Fact]) -> Result<(), Failed>
    ensures whole { OnOk result (TakesAll (flat_map line_text facts.now) (S.taken sink.old) (S.taken sink.new)) }
    ensures front { TakesFront (flat_map line_text facts.now) (S.taken sink.old) (S.taken sink.new) }
    ensures counted { S.faults sink.old ≤ S.faults sink.new }
    ensures cause { OnErr result (HasRisen (S.faults sink.old) (S.faults sink.new)) }
{
    for fact in facts {
        put_all(sink, line_of(fact).as_bytes())?;
    }
    Ok(())
}
