//! The words of an event.
ghost use Rattle.std.specs.Prelude.{◌≡◌, ◌+◌, ◌*◌, ◌≤◌, ◌++◌, codes, length};
ghost use Rattle.plain_machine.specs.Fitting.{AreRanges, IsFitting};
ghost use Rattle.run_picture.specs.Texts.{named};
ghost use Rattle.run_picture.specs.Words.{event_words, one_words, range_words, ranges_words, request_words};
ghost use Rattle.run_picture.specs.Words.{saving_words, two_words};

use crate::piece::{Piece, put_named};
use page_core::Format;
use plain_machine::{Actor, Event, Loader, Ranges, TaskOp};

/// Adds the words of an event, as a line of a script has them.
pub(crate) fn put_words(piece: &mut Piece, event: &Event)
    requires room { length piece.old ≤ 4000 }
    requires fits { IsFitting event.now }
    ensures added { piece.new ≡ piece.old ++ event_words event.now }
    ensures len { length piece.new ≤ length piece.old + 400 }
{
    match event {
        Event::Boot(_) => piece.put(b"boot"),
        Event::Hibernate(format) => put_saving(piece, b"hibernate", *format),
        Event::Suspend(format) => put_saving(piece, b"suspend", *format),
        Event::Wake => piece.put(b"wake"),
        Event::Settle => piece.put(b"settle"),
        Event::Shrink(want) => put_named(piece, b"shrink ", *want),
        Event::Resume(Loader::Ranges(ranges), _) => {
            piece.put(b"resume");
            put_ranges(piece, ranges);
        }
        Event::Resume(Loader::Table, _) => piece.put(b"resume"),
        Event::Step(Actor::Core) => piece.put(b"step core"),
        Event::Step(Actor::Task(task)) => put_named(piece, b"step ", u64::from(*task)),
        Event::Task(task, op) => put_request(piece, *task, *op),
        Event::Cut(pick) => put_named(piece, b"cut ", *pick),
        Event::Arm { first, count, pick } => put_two(piece, b"arm ", *first, *count, *pick),
    }
}

fn put_saving(piece: &mut Piece, name: &[u8], format: Format)
    requires { length piece.old + length name.now ≤ 8000 }
    ensures added { piece.new ≡ piece.old ++ saving_words name.now format }
    ensures len { length piece.new ≤ length piece.old + length name.now + 6 }
{
    piece.put(name);
    match format {
        Format::Plain => {}
        Format::SkipZeros => piece.put(b" zeros"),
    }
}

fn put_ranges(piece: &mut Piece, ranges: &Ranges)
    requires room { length piece.old ≤ 4100 }
    requires fits { AreRanges ranges.now }
    ensures added { piece.new ≡ piece.old ++ ranges_words ranges.now }
    ensures len { length piece.new ≤ length piece.old + 336 }
{
    for range in &ranges.list[..ranges.count as usize] {
        put_range(piece, *range);
    }
}

fn put_range(piece: &mut Piece, range: (u32, u32))
    requires { length piece.old ≤ 8000 }
    ensures added { piece.new ≡ piece.old ++ range_words range }
    ensures len { length piece.new ≤ length piece.old + 42 }
{
    put_named(piece, b" ", u64::from(range.0));
    put_named(piece, b"-", u64::from(range.1));
}

fn put_request(piece: &mut Piece, task: u32, op: TaskOp)
    requires { length piece.old ≤ 8000 }
    ensures added { piece.new ≡ piece.old ++ request_words task op }
    ensures len { length piece.new ≤ length piece.old + 100 }
{
    match op {
        TaskOp::Claim(frame) => put_one(piece, b"claim ", task, frame),
        TaskOp::Release(frame) => put_one(piece, b"release ", task, frame),
        TaskOp::Store(frame, word, value) => {
            put_two(piece, b"store ", task, frame, u64::from(word));
            put_named(piece, b" ", value);
        }
        TaskOp::Show(frame, word) => put_two(piece, b"show ", task, frame, u64::from(word)),
        TaskOp::Cache(frame) => put_one(piece, b"cache ", task, frame),
        TaskOp::Out(frame) => put_one(piece, b"out ", task, frame),
        TaskOp::TakeIn(slot, frame) => put_two(piece, b"in ", task, slot, u64::from(frame)),
    }
}

fn put_one(piece: &mut Piece, name: &[u8], task: u32, number: u32)
    requires { length piece.old + length name.now ≤ 8100 }
    ensures added { piece.new ≡ piece.old ++ one_words name.now task number }
    ensures len { length piece.new ≤ length piece.old + length name.now + 41 }
{
    put_named(piece, name, u64::from(task));
    put_named(piece, b" ", u64::from(number));
}

fn put_two(piece: &mut Piece, name: &[u8], task: u32, first: u32, second: u64)
    requires { length piece.old + length name.now ≤ 8080 }
    ensures added { piece.new ≡ piece.old ++ two_words name.now task first second }
    ensures len { length piece.new ≤ length piece.old + length name.now + 62 }
{
    put_one(piece, name, task, first);
    put_named(piece, b" ", second);
}
