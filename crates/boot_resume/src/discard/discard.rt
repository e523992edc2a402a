use crate::discard::step::{Left, Step};
use image_format::{is_marked, take_back};
use page_core::Page;

/// Gives up the image of an area: a value that its caller asks for the next call and tells how that call went.
#[derive(Clone, Copy, Debug, PartialEq, Eq)]
pub struct Discard {
    /// The call that is to be made, or how the discard ended.
    pub step: Step,
}

impl Discard {
    ghost use Rattle.std.specs.Prelude.{◌≡◌, List, ℕ};
    ghost use Rattle.definitions.specs.SwapHeader.{taken_back};
    ghost use Rattle.boot_resume.specs.Steps.{Answered, IsEnd, failed_after};
    ghost use Rattle.boot_resume.specs.declared.discard.step.Step.{Step};

    /// Returns a discard before the header block is read.
    pub fn new(header: u64) -> Discard
        ensures { result.step ≡ Step.Read header }
    {
        Discard {
            step: Step::Read { block: header },
        }
    }

    /// Returns the call that is to be made, or how the discard ended.
    pub fn next(&self) -> Step
        ensures { result ≡ self.now.step }
    {
        self.step
    }

    /// Records that the pending call was made. `page` is the caller's buffer: after the read it holds what the disk
    /// gave, and if the next call is a write, it receives what is to be written.
    pub fn answer(&mut self, page: &mut Page)
        ensures answered { Answered self.old.step page.old self.new.step page.new }
        ensures over { IsEnd self.old.step → self.new ≡ self.old }
    {
        match self.step {
            Step::Read { block } => self.step = step_behind(page, block),
            Step::Write { .. } => self.step = Step::Sync,
            Step::Sync => self.step = Step::Discarded,
            _ => {}
        }
    }

    /// Records that the pending call failed. After the end nothing changes.
    pub fn fail(&mut self)
        ensures failed { self.new.step ≡ failed_after self.old.step }
        ensures over { IsEnd self.old.step → self.new ≡ self.old }
    {
        match self.step {
            Step::Read { .. } => self.step = Step::Failed { left: Left::Same },
            Step::Write { .. } => self.step = Step::Failed { left: Left::Unsure },
            Step::Sync => self.step = Step::Failed { left: Left::Unsure },
            _ => {}
        }
    }
}

ghost use Rattle.boot_resume.specs.Steps.{IsBehindRead};

/// Returns the step after the read of the header block, and replaces the block by the block taken back if that is to be
/// written.
fn step_behind(page: &mut Page, block: u64) -> Step
    ensures { IsBehindRead block page.old page.new result }
{
    if !is_marked(page) {
        return Step::NoImage;
    }
    let back = take_back(page);
    if is_marked(&back) {
        return Step::NoOriginal;
    }
    *page = back;
    Step::Write { block }
}
