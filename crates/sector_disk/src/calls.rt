ghost use Rattle.std.specs.Prelude.{◌≡◌, ℕ, ◌+◌, ◌<◌, ◌≤◌, ◌↔◌};
ghost use Rattle.sector_disk.specs.Calls.{IsDue, TakesTurn, LosesTurn};

use page_core::Failed;

/// The calls of a disk in memory: how many there were, how many failed, and which are to fail.
#[derive(Clone, Copy)]
pub struct Calls {
    pub made: u64,
    pub faults: u64,
    /// The calls that succeed before those that fail.
    pub skip: u32,
    /// The calls that then fail.
    pub fail: u32,
    /// The sectors that a write takes when it fails.
    pub pick: u64,
}

impl Calls {
    /// Returns the state in which no call was made and none is to fail.
    pub fn none() -> Calls
        ensures made { result.made ≡ 0 }
        ensures faults { result.faults ≡ 0 }
        ensures due { (k : ℕ) → IsDue result k → ⊥ }
    {
        Calls {
            made: 0,
            faults: 0,
            skip: 0,
            fail: 0,
            pick: 0,
        }
    }

    /// Makes the calls number `first` to `first + count - 1` from now fail, and no others.
    pub fn arm(&mut self, first: u32, count: u32, pick: u64)
        ensures due { (k : ℕ) → 0 < k → (IsDue self.new k ↔ ((first ≤ k) × (k < first + count))) }
        ensures pick { self.new.pick ≡ pick }
        ensures made { self.new.made ≡ self.old.made }
        ensures faults { self.new.faults ≡ self.old.faults }
    {
        self.skip = first.saturating_sub(1);
        // There is no call number 0.
        self.fail = if first == 0 {
            count.saturating_sub(1)
        } else {
            count
        };
        self.pick = pick;
    }

    /// Counts a call, and fails if the call is due to fail.
    pub fn take_turn(&mut self) -> Result<(), Failed>
        ensures turn { TakesTurn self.old self.new result }
        ensures faults { self.old.faults ≤ self.new.faults }
    {
        self.made = self.made.saturating_add(1);
        if self.skip > 0 {
            self.skip -= 1;
            return Ok(());
        }
        if self.fail > 0 {
            self.fail -= 1;
            self.faults = self.faults.saturating_add(1);
            return Err(Failed);
        }
        Ok(())
    }

    /// Counts a call that fails, whether or not it was due to fail.
    pub fn lose_turn(&mut self)
        ensures turn { LosesTurn self.old self.new }
        ensures faults { self.old.faults ≤ self.new.faults }
    {
        match self.take_turn() {
            Ok(()) => self.faults = self.faults.saturating_add(1),
            Err(Failed) => {}
        }
    }
}
