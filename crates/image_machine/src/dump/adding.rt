ghost use Rattle.std.specs.Prelude.{◌≡◌, ◌≤◌, ℕ, []};
ghost use Rattle.image_pages.specs.Numbered.{HasNumbered};
ghost use Rattle.image_machine.specs.Plans.{IsPlan};
ghost use Rattle.image_machine.specs.Adds.{Adds};

use crate::{Limit, Plan};
use image_check::Report;
use image_pages::frames::{NextNumber, Numbers};
use sector_disk::Disk;

/// What became of the numbers of an image.
#[derive(Clone, Copy)]
pub(crate) enum Added {
    /// All numbers were added.
    All,
    /// The image has a fault, which was reported.
    Refused,
    /// The plan has no place for a page frame.
    Limit(Limit),
}

/// Reads the numbers of an image to their end, and adds them to a plan that has none.
pub(crate) fn add_all<D: Disk, R: Report>(
    plan: &mut Plan<'_>,
    numbers: &mut Numbers,
    disk: &mut D,
    report: &mut R,
) -> Added
    requires plan { IsPlan plan.old }
    requires none { plan.old.saved.members ≡ [] }
    requires numbered { (header : ℕ) ×
        HasNumbered (D.content disk.old) (D.block_count disk.old) header numbers.old [] }
    ensures adds { (header : ℕ) → HasNumbered (D.content disk.old) (D.block_count disk.old) header numbers.old [] →
        Adds (D.content disk.old) (D.block_count disk.old) header (D.faults disk.old) (D.faults disk.new)
        (R.told report.old) (R.told report.new) plan.new result }
    ensures plan { IsPlan plan.new }
    ensures heading { plan.new.heading ≡ plan.old.heading }
    ensures layout { plan.new.layout ≡ plan.old.layout }
    ensures content { D.content disk.new ≡ D.content disk.old }
    ensures faults { D.faults disk.old ≤ D.faults disk.new }
    ensures orders { D.orders disk.new ≡ D.orders disk.old }
    ensures blocks { D.block_count disk.new ≡ D.block_count disk.old }
{
    loop {
        match numbers.next(disk, report) {
            NextNumber::Frame(number) => match plan.add(number) {
                Ok(()) => {}
                Err(limit) => return Added::Limit(limit),
            },
            NextNumber::End => return Added::All,
            NextNumber::Refused => return Added::Refused,
        }
    }
}
