ghost use Rattle.std.specs.Prelude.{◌≡◌, ◌≤◌, ℕ, []};
ghost use Rattle.image_pages.specs.Given.{HasGiven};
ghost use Rattle.image_machine.specs.Filled.{IsFilled};
ghost use Rattle.image_machine.specs.Lays.{Lays};

use crate::FilledPlan;
use crate::dump::adding::Added;
use image_check::Report;
use image_pages::frames::{Frames, Next};
use page_core::Page;
use sector_disk::Disk;

/// Reads the saved page frames of an image to their end, and adds them to a plan that has none.
pub(crate) fn lay_all<D: Disk, R: Report>(
    filled: &mut FilledPlan<'_>,
    frames: &mut Frames,
    disk: &mut D,
    report: &mut R,
) -> Added
    requires filled { IsFilled filled.old [] }
    requires given { (header : ℕ) ×
        HasGiven (D.content disk.old) (D.block_count disk.old) header frames.old [] }
    ensures lays { (header : ℕ) → HasGiven (D.content disk.old) (D.block_count disk.old) header frames.old [] →
        Lays (D.content disk.old) (D.block_count disk.old) header (D.faults disk.old) (D.faults disk.new)
        (R.told report.old) (R.told report.new) filled.new result }
    ensures heading { filled.new.plan.heading ≡ filled.old.plan.heading }
    ensures layout { filled.new.plan.layout ≡ filled.old.plan.layout }
    ensures zones { filled.new.plan.zones ≡ filled.old.plan.zones }
    ensures content { D.content disk.new ≡ D.content disk.old }
    ensures faults { D.faults disk.old ≤ D.faults disk.new }
    ensures orders { D.orders disk.new ≡ D.orders disk.old }
    ensures blocks { D.block_count disk.new ≡ D.block_count disk.old }
{
    let mut page = Page::zero();
    loop {
        match frames.next(disk, report, &mut page) {
            Next::Frame(number) => match filled.add(number, &page) {
                Ok(()) => {}
                Err(limit) => return Added::Limit(limit),
            },
            Next::End => return Added::All,
            Next::Refused => return Added::Refused,
        }
    }
}
