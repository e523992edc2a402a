use crate::event::{Actor, Event, Loader, Ranges, TaskOp};
use definitions::WORDS_PER_PAGE;

impl Event {
    ghost use Rattle.std.specs.Prelude.{◌↔◌, IsTrue};
    ghost use Rattle.plain_machine.specs.Fitting.{IsFitting};

    /// Returns whether the event's numbers are in the ranges that a script's lines allow.
    pub fn fits(&self) -> bool
        ensures { IsTrue result ↔ IsFitting self.now }
    {
        match *self {
            Event::Boot(_) | Event::Hibernate(_) | Event::Suspend(_) | Event::Wake => true,
            Event::Settle | Event::Shrink(_) | Event::Cut(_) | Event::Step(Actor::Core) => true,
            Event::Resume(loader, _) => loader.fits(),
            Event::Step(Actor::Task(t)) => is_task(t),
            Event::Task(t, op) => is_task(t) && op.fits(),
            Event::Arm { first, count, .. } => are_calls(first, count),
        }
    }
}

impl TaskOp {
    ghost use Rattle.std.specs.Prelude.{◌↔◌, IsTrue};
    ghost use Rattle.plain_machine.specs.Fitting.{IsFittingOp};

    /// Returns whether the request's numbers are in their ranges.
    pub fn fits(&self) -> bool
        ensures { IsTrue result ↔ IsFittingOp self.now }
    {
        match *self {
            TaskOp::Claim(p) => is_frame(p),
            TaskOp::Release(p) => is_frame(p),
            TaskOp::Store(p, k, _) => is_frame(p) && k < WORDS_PER_PAGE,
            TaskOp::Show(p, k) => is_frame(p) && k < WORDS_PER_PAGE,
            TaskOp::Cache(p) => is_frame(p),
            TaskOp::Out(p) => is_frame(p),
            TaskOp::TakeIn(slot, p) => slot < 131_072 && is_frame(p),
        }
    }
}

impl Loader {
    ghost use Rattle.std.specs.Prelude.{◌↔◌, IsTrue};
    ghost use Rattle.plain_machine.specs.Fitting.{IsFittingLoader};

    fn fits(&self) -> bool
        ensures { IsTrue result ↔ IsFittingLoader self.now }
    {
        match self {
            Loader::Ranges(ranges) => ranges.fit(),
            Loader::Table => true,
        }
    }
}

impl Ranges {
    ghost use Rattle.std.specs.Prelude.{◌↔◌, IsTrue};
    ghost use Rattle.plain_machine.specs.Fitting.{AreRanges};

    fn fit(&self) -> bool
        ensures { IsTrue result ↔ AreRanges self.now }
    {
        self.count <= 8 && self.list.iter().all(is_range)
    }
}

ghost use Rattle.std.specs.Prelude.{◌<◌, ◌↔◌, ℕ, IsTrue};
ghost use Rattle.plain_machine.specs.Fitting.{AreCalls, IsRange};
ghost use Rattle.plain_machine.specs.Machine.{IsTask};

fn is_range(range: &(u32, u32)) -> bool
    ensures { IsTrue result ↔ IsRange range.now }
{
    range.0 <= range.1 && range.1 < 65536
}

fn are_calls(first: u32, count: u32) -> bool
    ensures { IsTrue result ↔ AreCalls first count }
{
    1 <= first && first <= 1_000_000 && count <= 1_000_000
}

fn is_task(t: u32) -> bool
    ensures { IsTrue result ↔ IsTask t }
{
    1 <= t && t <= 64
}

fn is_frame(p: u32) -> bool
    ensures { IsTrue result ↔ (p < 65536) }
{
    p < 65536
}
