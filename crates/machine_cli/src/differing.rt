ghost use Rattle.std.specs.Prelude.{◌≡◌, ◌⊎◌, ◌≤◌, ◌+◌, ◌++◌, ◌∷◌, [], decimal, length};
ghost use Rattle.definitions.specs.Disk.{HasRisen};
ghost use Rattle.machine_cli.specs.Compared.{Compares, difference_told};
ghost use Rattle.command_kit.specs.AnswerOf.{told_by};
ghost use Rattle.command_kit.specs.Causes.{HasCause};
ghost use Rattle.command_kit.specs.View.{sink_view};

use byte_streams::{Line, Sink, Source};
use command_kit::{Answer, Status};
use dump_tools::{Difference, first_difference};
use std::alloc::Global;
use swsusp_cli::dump_of_input;

/// Reads two dumps, one after the other, and reports their first difference, or that an image would save the same of
/// both machines.
#[inline(never)]
pub fn differ<I: Source, J: Source, O: Sink, N: Sink>(
    alloc: Global,
    first: &mut I,
    second: &mut J,
    out: &mut O,
    note: &mut N,
) -> Status
    ensures outcome { Compares (I.remaining first.old) (I.remaining first.new)
        (J.remaining second.old)
        (J.remaining second.new)
        result
        (sink_view O.Sink out.old)
        (sink_view O.Sink out.new)
        (sink_view N.Sink note.old)
        (sink_view N.Sink note.new) }
    ensures cause { HasCause (HasRisen (I.faults first.old) (I.faults first.new)
        ⊎ HasRisen (J.faults second.old) (J.faults second.new)
        ⊎ HasRisen (O.faults out.old) (O.faults out.new) ⊎ HasRisen (N.faults note.old) (N.faults note.new)) ⊥ result }
{
    let a = match dump_of_input(alloc, first) {
        Ok(dump) => dump,
        Err(stop) => return stop.tell(out, note),
    };
    let b = match dump_of_input(alloc, second) {
        Ok(dump) => dump,
        Err(stop) => return stop.tell(out, note),
    };
    told_of(first_difference(&a, &b)).tell(out, note)
}

/// Returns what is printed for the first difference of two dumps.
fn told_of(difference: Option<Difference>) -> Answer
    ensures told { told_by result ≡ difference_told difference }
    ensures cause { HasCause ⊥ ⊥ result.status }
{
    let mut out = Line::new();
    let status = match difference {
        None => {
            out.put(b"same\n");
            Status::Done
        }
        Some(Difference::Hardware) => {
            out.put(b"hardware\n");
            Status::Refused
        }
        Some(Difference::Saveable(p)) => {
            put_frame(&mut out, b"saveable ", p);
            Status::Refused
        }
        Some(Difference::Page(p)) => {
            put_frame(&mut out, b"page ", p);
            Status::Refused
        }
    };
    Answer {
        status,
        out,
        note: Line::new(),
    }
}

fn put_frame(line: &mut Line, text: &[u8], p: u32)
    requires { length line.old + length text.now ≤ 100 }
    ensures added { line.new ≡ line.old ++ text.now ++ decimal p ++ 10 ∷ [] }
{
    line.put(text);
    line.put_number(u64::from(p));
    line.put(b"\n");
}
