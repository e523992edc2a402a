ghost use Rattle.std.specs.Prelude.{◌≡◌, ◌+◌, ◌<◌, ◌≤◌, ◌^◌, List, ℕ, [], ◌∷◌, ◌++◌};
ghost use Rattle.image_show.specs.Runs.{count_of, end_of, list_of, IsUpTo};

/// Collects numbers that come one after another into runs, each a first number and a count. Only the last run is kept.
#[derive(Clone, Copy, Debug, PartialEq, Eq)]
pub struct Runs {
    last: Option<(u64, u64)>,
}

impl Runs {
    pub fn new() -> Runs
        ensures start { IsUpTo [] result.last [] }
        ensures count { count_of result.last ≡ 0 }
    {
        Runs { last: None }
    }

    /// Adds a number. Returns the run before it, if the number doesn't follow its last one.
    pub fn add(&mut self, number: u64) -> Option<(u64, u64)>
        requires { count_of self.old.last + 1 < 2 ^ 64 }
        ensures runs { (numbers : List ℕ) (ended : List (ℕ × ℕ)) → IsUpTo numbers self.old.last ended →
            IsUpTo (numbers ++ number ∷ []) self.new.last (ended ++ list_of result) }
        ensures count { count_of self.new.last ≤ count_of self.old.last + 1 }
        ensures end { end_of self.new.last ≡ number + 1 }
    {
        let Some((start, count)) = self.last else {
            self.last = Some((number, 1));
            return None;
        };
        if number >= start && number - start == count {
            self.last = Some((start, count + 1));
            None
        } else {
            self.last = Some((number, 1));
            Some((start, count))
        }
    }

    /// Returns the last run, if there was a number.
    pub fn last(&self) -> Option<(u64, u64)>
        ensures { result ≡ self.now.last }
    {
        self.last
    }
}
