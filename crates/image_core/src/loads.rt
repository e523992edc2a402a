ghost use Rattle.std.specs.Prelude.{◌≡◌, ◌+◌, ◌*◌, ◌<◌, ◌≤◌, ◌^◌, ℕ, List, Option, [], ◌∷◌, ◌++◌, length, OnOk, OnErr};
ghost use Rattle.definitions.specs.Disk.{HasRisen};
ghost use Rattle.definitions.specs.FreeRuns.{runs_of};
ghost use Rattle.definitions.specs.Streams.{TakesAll, TakesFront};
ghost use Rattle.elf_core.specs.Elf.{load_bytes, loads_bytes};
ghost use Rattle.image_core.specs.Listed.{AreListed, CanList, IsListFront};

use crate::counter::RunCounter;
use byte_streams::{Sink, put_all};
use page_core::Failed;

/// The number of bytes of a page.
const PAGE_SIZE: u64 = 4096;

/// Writes the program headers of runs whose numbers come one after another.
#[derive(Clone, Copy)]
pub(crate) struct Loads {
    counter: RunCounter,
    /// The place of the next run's pages in the file.
    offset: u64,
}

impl Loads {
    /// Returns a writer before the first program header; the pages lie from `offset` on.
    pub fn new(offset: u64) -> Loads
        ensures { (taken : Option (List ℕ)) → AreListed offset [] result taken taken }
    {
        Loads {
            counter: RunCounter::new(),
            offset,
        }
    }

    /// Adds a number. If a run ends before it, the program header of that run is written.
    pub fn add<S: Sink>(&mut self, number: u64, out: &mut S) -> Result<(), Failed>
        requires { (start : ℕ) × ((numbers : List ℕ) × ((old : Option (List ℕ)) ×
            (AreListed start numbers self.old old (S.taken out.old) × CanList start (numbers ++ number ∷ [])))) }
        ensures listed { (start : ℕ) (numbers : List ℕ) (old : Option (List ℕ)) →
            AreListed start numbers self.old old (S.taken out.old) →
            OnOk result (AreListed start (numbers ++ number ∷ []) self.new old (S.taken out.new)) }
        ensures front { (start : ℕ) (numbers : List ℕ) (old : Option (List ℕ)) →
            AreListed start numbers self.old old (S.taken out.old) →
            OnErr result (IsListFront start (numbers ++ number ∷ []) old (S.taken out.new)) }
        ensures counted { S.faults out.old ≤ S.faults out.new }
        ensures cause { OnErr result (HasRisen (S.faults out.old) (S.faults out.new)) }
    {
        match self.counter.add(number) {
            Some(run) => put_load(&mut self.offset, run, out),
            None => Ok(()),
        }
    }

    /// Writes the program header of the last run.
    pub fn end<S: Sink>(&mut self, out: &mut S) -> Result<(), Failed>
        requires { (start : ℕ) × ((numbers : List ℕ) × ((old : Option (List ℕ)) ×
            (AreListed start numbers self.old old (S.taken out.old) × CanList start numbers))) }
        ensures listed { (start : ℕ) (numbers : List ℕ) (old : Option (List ℕ)) →
            AreListed start numbers self.old old (S.taken out.old) →
            OnOk result (TakesAll (loads_bytes start (runs_of numbers)) old (S.taken out.new)) }
        ensures front { (start : ℕ) (numbers : List ℕ) (old : Option (List ℕ)) →
            AreListed start numbers self.old old (S.taken out.old) →
            TakesFront (loads_bytes start (runs_of numbers)) old (S.taken out.new) }
        ensures counter { self.new.counter ≡ self.old.counter }
        ensures counted { S.faults out.old ≤ S.faults out.new }
        ensures cause { OnErr result (HasRisen (S.faults out.old) (S.faults out.new)) }
    {
        match self.counter.last() {
            Some(run) => put_load(&mut self.offset, run, out),
            None => Ok(()),
        }
    }

    /// Returns how many program headers there are.
    pub fn count(&self) -> u32
        requires { (start : ℕ) × ((numbers : List ℕ) × ((old : Option (List ℕ)) × ((new : Option (List ℕ)) ×
            (AreListed start numbers self.now old new × CanList start numbers)))) }
        ensures { (start : ℕ) (numbers : List ℕ) (old new : Option (List ℕ)) →
            AreListed start numbers self.now old new → result ≡ length (runs_of numbers) }
    {
        self.counter.count()
    }
}

/// Writes the program header of a run whose pages lie from `offset` on, and moves `offset` to the pages of the next
/// run.
fn put_load<S: Sink>(offset: &mut u64, run: (u64, u64), out: &mut S) -> Result<(), Failed>
    requires first { run.0 < 2 ^ 52 }
    requires count { run.1 < 2 ^ 52 }
    requires offset { offset.old + 4096 * run.1 < 2 ^ 64 }
    ensures whole { OnOk result (TakesAll (load_bytes offset.old run.0 run.1) (S.taken out.old) (S.taken out.new)) }
    ensures front { TakesFront (load_bytes offset.old run.0 run.1) (S.taken out.old) (S.taken out.new) }
    ensures moved { offset.new ≡ offset.old + 4096 * run.1 }
    ensures counted { S.faults out.old ≤ S.faults out.new }
    ensures cause { OnErr result (HasRisen (S.faults out.old) (S.faults out.new)) }
{
    let (first, count) = run;
    let header = elf_core::load(*offset, first, count);
    *offset += PAGE_SIZE * count;
    put_all(out, header.as_bytes())
}
