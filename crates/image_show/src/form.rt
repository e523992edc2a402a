ghost use Rattle.std.specs.Prelude.{◌≡◌, ◌≤◌, ℕ, Bool, [], ◌∷◌, OnOk, OnErr};
ghost use Rattle.image_show.specs.Forms.{HasFailed, Puts, PutsFront, Style, Written};

use crate::Fact;
use page_core::Failed;

/// A form in which facts are printed, one after another.
pub trait Form {
    /// What is printed of each fact.
    ghost style: { Style };

    /// What was printed so far.
    ghost written: { Self → Written };

    /// How often the output has failed. The count never falls, and saturates at 2^64-1.
    ghost faults: { Self → ℕ };

    /// Whether memory was refused.
    ghost refused: { Self → Bool };

    /// Prints a fact after those before it.
    fn put(&mut self, fact: &Fact) -> Result<(), Failed>
        ensures whole { OnOk result (Puts style (fact.now ∷ []) (written self.old) (written self.new)) }
        ensures front { PutsFront style (fact.now ∷ []) (written self.old) (written self.new) }
        ensures counted { faults self.old ≤ faults self.new }
        ensures cause { OnErr result (HasFailed (faults self.old) (faults self.new) (refused self.new)) };
}
