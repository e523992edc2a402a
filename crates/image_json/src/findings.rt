ghost use Rattle.std.specs.Prelude.{◌≡◌, [], false, Some, if◌then◌else◌};
ghost use Rattle.image_check.specs.Lines.{lines_of};
ghost use Rattle.image_json.specs.Findings.{untold};

use image_check::{Finding, Report};
use std::alloc::Global;

/// Keeps findings in memory, in the order in which they are reported. Once memory was refused, no more are kept.
#[derive(Drop)]
pub struct Findings {
    pub(crate) kept: Vec<Finding>,
    count: u64,
    /// Whether memory was refused.
    pub(crate) refused: bool,
}

impl Findings {
    /// Returns a store without findings.
    pub fn new(alloc: Global) -> Findings
        ensures { ⟦<Findings as Report>⟧.told result ≡ untold }
    {
        Findings {
            kept: Vec::new(alloc),
            count: 0,
            refused: false,
        }
    }
}

impl Report for Findings {
    ghost told = { λ f. record {
      text = Some (lines_of f.kept.items);
      count = f.count;
      failed = f.refused;
      faults = if f.refused then 1 else 0;
    } };

    fn tell(&mut self, finding: Finding) {
        self.count = self.count.saturating_add(1);
        if !self.refused {
            self.refused = self.kept.push(finding).is_err();
        }
    }

    fn count(&self) -> u64 {
        self.count
    }
}
