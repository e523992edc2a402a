ghost use Rattle.std.specs.Prelude.{◌≡◌, ◌<◌, ◌≤◌, ℕ, [], IfErr, IfOk, OnOk};
ghost use Rattle.image_pages.specs.Numbered.{HasNumbered};
ghost use Rattle.image_core.specs.Cores.{IsStopped};
ghost use Rattle.image_core.specs.Counted.{HasCounted, HasTallied, WillGive};

use crate::counter::RunCounter;
use crate::opening::open;
use crate::stop::Stop;
use image_check::Report;
use image_pages::frames::{NextNumber, Numbers};
use sector_disk::Disk;
use std::alloc::Global;

/// The number of page frames of an image, and the number of their runs.
#[derive(Clone, Copy)]
pub(crate) struct Tally {
    pub frames: u32,
    pub runs: u32,
}

/// Counts the page frames of an image, and their runs.
pub(crate) fn count_image<D: Disk, R: Report>(
    alloc: Global,
    disk: &mut D,
    header: u32,
    report: &mut R,
) -> Result<Tally, Stop>
    ensures tallied { IfOk result (HasTallied (D.content disk.old) header) }
    ensures told { OnOk result (R.told report.new ≡ R.told report.old) }
    ensures stopped { IfErr result (IsStopped (D.content disk.old) (D.block_count disk.old) header
        (D.faults disk.old) (D.faults disk.new) (R.told report.old) (R.told report.new) 0 0) }
    ensures content { D.content disk.new ≡ D.content disk.old }
    ensures faults { D.faults disk.old ≤ D.faults disk.new }
    ensures orders { D.orders disk.new ≡ D.orders disk.old }
    ensures blocks { D.block_count disk.new ≡ D.block_count disk.old }
{
    let mut numbers: Numbers = open(alloc, disk, header, report)?;
    let count = numbers.count();
    if count >= u64::from(u32::MAX) {
        return Err(Stop::TooMany);
    }
    let frames = count as u32;
    let runs = count_runs(&mut numbers, frames, disk, report)?;
    Ok(Tally { frames, runs })
}

/// Counts the runs of all page frames, `frames` in number.
fn count_runs<D: Disk, R: Report>(
    numbers: &mut Numbers,
    frames: u32,
    disk: &mut D,
    report: &mut R,
) -> Result<u32, Stop>
    requires few { frames < 4294967295 }
    requires numbered { (header : ℕ) × (HasNumbered (D.content disk.old) (D.block_count disk.old) header numbers.old []
        × WillGive numbers.old frames) }
    ensures counted { (header : ℕ) →
        HasNumbered (D.content disk.old) (D.block_count disk.old) header numbers.old [] → WillGive numbers.old frames →
        IfOk result (HasCounted (D.content disk.old) header frames) }
    ensures told { OnOk result (R.told report.new ≡ R.told report.old) }
    ensures stopped { (header : ℕ) →
        HasNumbered (D.content disk.old) (D.block_count disk.old) header numbers.old [] → WillGive numbers.old frames →
        IfErr result (IsStopped (D.content disk.old) (D.block_count disk.old) header
        (D.faults disk.old) (D.faults disk.new) (R.told report.old) (R.told report.new) 0 0) }
    ensures content { D.content disk.new ≡ D.content disk.old }
    ensures faults { D.faults disk.old ≤ D.faults disk.new }
    ensures orders { D.orders disk.new ≡ D.orders disk.old }
    ensures blocks { D.block_count disk.new ≡ D.block_count disk.old }
{
    let mut runs = RunCounter::new();
    for _ in 0..frames {
        match numbers.next(disk, report) {
            NextNumber::Frame(number) => {
                runs.add(number);
            }
            NextNumber::End => return Err(Stop::Changed),
            NextNumber::Refused => return Err(Stop::Refused),
        }
    }
    Ok(runs.count())
}
