ghost use Rattle.std.specs.Prelude.{◌≡◌, ◌≤◌, ◌↔◌, IsErr, OnErr};
ghost use Rattle.definitions.specs.Disk.{HasRisen, raised};
ghost use Rattle.byte_streams.specs.Calls.{IsDue};

use page_core::Failed;

/// The calls of a source or a sink in memory, counted from 0: those that must fail, how many were made, and how often
/// one failed. Both counts saturate at 2^64-1.
#[derive(Drop)]
pub(crate) struct Calls {
    failing: Vec<u64>,
    made: u64,
    faults: u64,
}

impl Calls {
    ghost use Rattle.std.specs.Prelude.{◌≡◌};

    pub(crate) fn new(failing: Vec<u64>) -> Calls
        ensures failing { result.failing ≡ failing }
        ensures made { result.made ≡ 0 }
        ensures faults { result.faults ≡ 0 }
    {
        Calls {
            failing,
            made: 0,
            faults: 0,
        }
    }

    /// Makes one more call. It fails if its number is listed.
    pub(crate) fn make(&mut self) -> Result<(), Failed>
        ensures fails { IsErr result ↔ IsDue self.old }
        ensures failing { self.new.failing ≡ self.old.failing }
        ensures made { self.new.made ≡ raised self.old.made }
        ensures counted { self.old.faults ≤ self.new.faults }
        ensures cause { OnErr result (HasRisen self.old.faults self.new.faults) }
    {
        let call = self.made;
        self.made = call.saturating_add(1);
        if self.failing.contains(&call) {
            return Err(self.fault());
        }
        Ok(())
    }

    /// Counts a call that has failed.
    pub(crate) fn fault(&mut self) -> Failed
        ensures failing { self.new.failing ≡ self.old.failing }
        ensures made { self.new.made ≡ self.old.made }
        ensures counted { self.old.faults ≤ self.new.faults }
        ensures risen { HasRisen self.old.faults self.new.faults }
    {
        self.faults = self.faults.saturating_add(1);
        Failed
    }
}
