//! The blocks of an image, collected into runs.
ghost use Rattle.std.specs.Prelude.{◌≡◌, ◌+◌, ◌<◌, ◌≤◌, ◌^◌, ◌∷◌, ◌++◌, [], List, ℕ, OnOk, IfOk, map};
ghost use Rattle.std.specs.List.{range_with_len};
ghost use Rattle.definitions.specs.Bytes.{word};
ghost use Rattle.definitions.specs.FreeRuns.{runs_of};
ghost use Rattle.image_show.specs.Runs.{count_of};
ghost use Rattle.image_show.specs.Told.{block_run};
ghost use Rattle.image_show.specs.declared.facts.fact.Fact.TheVariants.{Maps};
ghost use Rattle.definitions.specs.declared.counts.TheConstants.{BLOCKS_PER_MAP, MAP_PAGE_ENTRIES};

use image_show::{Fact, Runs};
use page_core::{NoMemory, Page};
use std::alloc::Global;

/// The blocks so far: their runs except the last one, as facts.
#[derive(Drop)]
pub(crate) struct Gathered {
    pub runs: Runs,
    pub facts: Vec<Fact>,
}

impl Gathered {
    ghost use Rattle.expanded_show.specs.Blocks.{HasGathered};

    /// Returns a collection without blocks.
    pub fn new(alloc: Global) -> Gathered
        ensures none { HasGathered [] result }
        ensures count { count_of result.runs.last ≡ 0 }
    {
        Gathered {
            runs: Runs::new(),
            facts: Vec::new(alloc),
        }
    }

    /// Adds a block.
    pub fn add(&mut self, block: u64) -> Result<(), NoMemory>
        requires { count_of self.old.runs.last + 1 < 2 ^ 64 }
        ensures added { (numbers : List ℕ) → HasGathered numbers self.old →
            OnOk result (HasGathered (numbers ++ block ∷ []) self.new) }
        ensures count { count_of self.new.runs.last ≤ count_of self.old.runs.last + 1 }
    {
        match self.runs.add(block) {
            Some((start, count)) => push(&mut self.facts, Fact::BlockRun(start, count)),
            None => Ok(()),
        }
    }

    /// Adds the block of a map, and those that its first entries name.
    pub fn add_map(&mut self, at: u64, page: &Page, entries: u64) -> Result<(), NoMemory>
        requires few { entries ≤ MAP_PAGE_ENTRIES }
        requires room { count_of self.old.runs.last + BLOCKS_PER_MAP < 2 ^ 64 }
        ensures added { (numbers : List ℕ) → HasGathered numbers self.old → OnOk result
            (HasGathered (numbers ++ at ∷ map (word page.now) (range_with_len 0 entries)) self.new) }
        ensures count { count_of self.new.runs.last ≤ count_of self.old.runs.last + BLOCKS_PER_MAP }
    {
        self.add(at)?;
        for i in 0..entries {
            self.add(page.word(i as usize))?;
        }
        Ok(())
    }

    /// Returns the facts of all blocks, and of how many maps there are.
    pub fn ended(self, maps: u64) -> Result<Vec<Fact>, NoMemory>
        ensures { (numbers : List ℕ) → HasGathered numbers self → IfOk result (λ facts.
            facts.items ≡ map block_run (runs_of numbers) ++ Maps maps ∷ []) }
    {
        let Gathered { runs, mut facts } = self;
        if let Some((start, count)) = runs.last() {
            push(&mut facts, Fact::BlockRun(start, count))?;
        }
        push(&mut facts, Fact::Maps(maps))?;
        Ok(facts)
    }
}

/// Adds a fact.
pub(crate) fn push(facts: &mut Vec<Fact>, fact: Fact) -> Result<(), NoMemory>
    ensures { OnOk result (facts.new.items ≡ facts.old.items ++ fact ∷ []) }
{
    facts.push(fact).map_err(|_| NoMemory)
}
