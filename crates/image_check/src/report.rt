ghost use Rattle.std.specs.Prelude.{◌≡◌, ◌∷◌, [], false};
ghost use Rattle.image_check.specs.Told.{Told, Tells, list_of};

use crate::Finding;
use crate::text::line_of;
use byte_streams::{Sink, put_all};

/// A receiver of findings.
pub trait Report {
    /// What was reported so far.
    ghost told: { Self → Told };

    /// Reports a finding.
    fn tell(&mut self, finding: Finding)
        ensures { Tells (finding ∷ []) (told self.old) (told self.new) };

    /// Returns how many findings were reported; the count saturates at 2^64-1.
    fn count(&self) -> u64
        ensures { result ≡ (told self.now).count };
}

/// Prints findings, one line each. Once a line couldn't be printed, no more are.
#[derive(Drop)]
pub struct Printer<S: Sink> {
    /// Where the lines go.
    pub sink: S,
    pub count: u64,
    /// Whether a line couldn't be printed.
    pub failed: bool,
}

impl<S: Sink> Printer<S> {
    /// Returns a printer that has received no finding.
    pub fn new(sink: S) -> Printer<S>
        ensures sink { result.sink ≡ sink }
        ensures count { result.count ≡ 0 }
        ensures failed { result.failed ≡ false }
    {
        Printer {
            sink,
            count: 0,
            failed: false,
        }
    }
}

impl<S: Sink> Report for Printer<S> {
    ghost told = { λ p.
        record { text = S.taken p.sink; count = p.count; failed = p.failed; faults = S.faults p.sink } };

    fn tell(&mut self, finding: Finding) {
        self.count = self.count.saturating_add(1);
        if !self.failed {
            self.failed = put_all(&mut self.sink, line_of(&finding).as_bytes()).is_err();
        }
    }

    fn count(&self) -> u64 {
        self.count
    }
}

/// Reports a finding, if there is one.
pub(crate) fn tell_any<R: Report>(report: &mut R, finding: Option<Finding>)
    ensures { Tells (list_of finding) (R.told report.old) (R.told report.new) }
{
    // The count has 64 bits.
    let _ = report.count();
    if let Some(finding) = finding {
        report.tell(finding);
    }
}
