ghost use Rattle.std.specs.Prelude.{◌≡◌, ◌+◌, ◌<◌, ◌≤◌, IsErr, MatchResult, length};
ghost use Rattle.definitions.specs.Disk.{Changes, HasRisen, raised};
ghost use Rattle.plain_machine.specs.Machine.{IsHardware, block_of_slot};
ghost use Rattle.swsusp_cli.specs.Replay.{Formats, FailsToFormat, IsNeeded, calls_until};

use image_format::area_page;
use machine::Hardware;
use page_core::Failed;
use sector_disk::Disk;
use thiserror::Error;

/// The call of the disk that failed while the area was formatted.
#[derive(Clone, Copy, Debug, PartialEq, Eq, Error)]
pub enum Unformatted {
    #[error("the header block wasn't written")]
    Write,
    #[error("the header block wasn't synced")]
    Sync,
}

/// Returns how many blocks a disk needs for a machine's swap area.
pub fn blocks_needed(hw: &Hardware) -> u32
    ensures need { IsNeeded hw.now result }
    ensures hardware { IsHardware hw.now }
{
    hw.is_hardware();
    let mut need = 0;
    for &(_, length, block) in hw.extents().extents() {
        need = need.max(block + length);
    }
    need
}

/// Writes the header block of a fresh area with this last page and these bad pages, and syncs.
pub fn format<D: Disk>(
    disk: &mut D,
    hw: &Hardware,
    last: u32,
    bad: &[u32],
) -> Result<(), Unformatted>
    requires header { block_of_slot hw.now 0 < D.block_count disk.old }
    requires few { length bad.now ≤ 630 }
    ensures content { MatchResult result
        (λ _. Changes (Formats hw.now last bad.now) (D.content disk.old) (D.content disk.new))
        (λ call. Changes (FailsToFormat hw.now last bad.now call) (D.content disk.old) (D.content disk.new)) }
    ensures cause { IsErr result → HasRisen (D.faults disk.old) (D.faults disk.new) }
    ensures faults { D.faults disk.old ≤ D.faults disk.new }
    ensures calls { MatchResult result
        (λ _. D.calls disk.new ≡ raised (raised (D.calls disk.old)))
        (λ call. D.calls disk.new ≡ calls_until call (D.calls disk.old)) }
    ensures orders { D.orders disk.new ≡ D.orders disk.old }
    ensures blocks { D.block_count disk.new ≡ D.block_count disk.old }
{
    // Reading the number of blocks tells the prover that it fits its type.
    let _blocks = disk.blocks();
    let header = hw.extents().block(0) as u32;
    match disk.write(header, &area_page(last, bad)) {
        Ok(()) => {}
        Err(Failed) => return Err(Unformatted::Write),
    }
    match disk.sync() {
        Ok(()) => Ok(()),
        Err(Failed) => Err(Unformatted::Sync),
    }
}
