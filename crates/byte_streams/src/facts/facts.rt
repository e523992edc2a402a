ghost use Rattle.std.specs.Prelude.{◌≡◌, ◌+◌, ◌<◌, ◌≤◌, [], ◌∷◌, ◌++◌, length, List};
ghost use Rattle.std.specs.Coded.{coded_list};

use arrayvec::ArrayVec;
use std::marker::Model;

/// Facts, at most `MOST`. A contract sees them as a list.
#[derive(Drop)]
pub struct Facts<F, const MOST: usize> {
    facts: ArrayVec<F, MOST>,
}

impl<F, const MOST: usize> Model for Facts<F, MOST> {
    ghost Value = { List F };

    ghost coded = { coded_list F.code };

    ghost view = { λ f. f.facts.items };
}

impl<F: Default, const MOST: usize> Facts<F, MOST> {
    pub fn new() -> Self
        ensures { result ≡ [] }
    {
        Facts {
            facts: ArrayVec::new(),
        }
    }
}

impl<F, const MOST: usize> Facts<F, MOST> {
    pub fn as_slice(&self) -> &[F]
        ensures { result.now ≡ self.now }
    {
        self.facts.as_slice()
    }
}

impl<F: Copy + Drop, const MOST: usize> Facts<F, MOST> {
    /// Adds a fact.
    pub fn add(&mut self, fact: F)
        requires { length self.old < MOST }
        ensures added { self.new ≡ self.old ++ fact ∷ [] }
        ensures len { length self.new ≡ length self.old + 1 }
    {
        self.facts.push(fact);
    }

    /// Adds some facts.
    pub fn add_all(&mut self, facts: &[F])
        requires { length self.old + length facts.now ≤ MOST }
        ensures added { self.new ≡ self.old ++ facts.now }
        ensures len { length self.new ≡ length self.old + length facts.now }
    {
        self.facts.try_extend_from_slice(facts).unwrap();
    }
}
