ghost use Rattle.std.specs.Prelude.{◌≡◌, ◌<◌, ℕ, List, [], ◌∷◌, ◌++◌, length};
ghost use Rattle.definitions.specs.FreeRuns.{runs_of};
ghost use Rattle.image_show.specs.Runs.{list_of};
ghost use Rattle.image_core.specs.Runs.{HasEnded};

use image_show::Runs;

/// Collects numbers that come one after another into runs, and counts the runs.
#[derive(Clone, Copy)]
pub(crate) struct RunCounter {
    runs: Runs,
    /// How many runs have ended.
    ended: u32,
}

impl RunCounter {
    pub fn new() -> RunCounter
        ensures { HasEnded [] result [] }
    {
        RunCounter {
            runs: Runs::new(),
            ended: 0,
        }
    }

    /// Adds a number. Returns the run that ends before it, if one does.
    pub fn add(&mut self, number: u64) -> Option<(u64, u64)>
        requires { (numbers : List ℕ) × ((ended : List (ℕ × ℕ)) × (HasEnded numbers self.old ended
            × (length numbers < 4294967295))) }
        ensures { (numbers : List ℕ) (ended : List (ℕ × ℕ)) → HasEnded numbers self.old ended →
            HasEnded (numbers ++ number ∷ []) self.new (ended ++ list_of result) }
    {
        let run = self.runs.add(number);
        if run.is_some() {
            self.ended += 1;
        }
        run
    }

    /// Returns the last run, which may go on.
    pub fn last(&self) -> Option<(u64, u64)>
        ensures { (numbers : List ℕ) (ended : List (ℕ × ℕ)) → HasEnded numbers self.now ended →
            runs_of numbers ≡ ended ++ list_of result }
    {
        self.runs.last()
    }

    /// Returns how many runs there are.
    pub fn count(&self) -> u32
        requires { (numbers : List ℕ) × ((ended : List (ℕ × ℕ)) × (HasEnded numbers self.now ended
            × (length numbers < 4294967295))) }
        ensures { (numbers : List ℕ) (ended : List (ℕ × ℕ)) → HasEnded numbers self.now ended →
            result ≡ length (runs_of numbers) }
    {
        match self.last() {
            Some(_) => self.ended + 1,
            None => self.ended,
        }
    }
}
