ghost use Rattle.std.specs.Prelude.{◌≡◌, ◌<◌, ◌≤◌, ℕ, List, Option, [], IfErr, IfSome, OnErr, OnOk};
ghost use Rattle.std.specs.List.{concat};
ghost use Rattle.definitions.specs.Disk.{as_it_reads};
ghost use Rattle.definitions.specs.Streams.{TakesFront};
ghost use Rattle.image_pages.specs.Chain.{chain_page};
ghost use Rattle.image_pages.specs.Formats.{chain_format};
ghost use Rattle.image_pages.specs.Given.{HasGiven};
ghost use Rattle.image_pages.specs.SavedFrames.{saved_frames};
ghost use Rattle.image_core.specs.Cores.{IsStopped, IsUnwritten, pages_of};
ghost use Rattle.image_core.specs.Counted.{HasTallied};
ghost use Rattle.image_core.specs.Parts.{HasPages};

use crate::counting::Tally;
use crate::stop::Stop;
use byte_streams::{Sink, put_all};
use image_check::Report;
use image_pages::frames::{Frames, Next};
use page_core::Page;
use sector_disk::Disk;

/// Writes the pages of an image's page frames.
pub(crate) fn write_pages<D: Disk, S: Sink, R: Report>(
    frames: &mut Frames,
    tally: Tally,
    disk: &mut D,
    out: &mut S,
    report: &mut R,
) -> Result<(), Stop>
    requires { (header : ℕ) × (HasGiven (D.content disk.old) (D.block_count disk.old) header frames.old []
        × HasTallied (D.content disk.old) header tally) }
    ensures written { (header : ℕ) →
        HasGiven (D.content disk.old) (D.block_count disk.old) header frames.old [] →
        HasTallied (D.content disk.old) header tally →
        OnOk result (HasPages (D.content disk.old) (D.block_count disk.old) header
        (D.faults disk.old) (D.faults disk.new) tally (S.taken out.old) (S.taken out.new)) }
    ensures told { OnOk result (R.told report.new ≡ R.told report.old) }
    ensures front { (header : ℕ) →
        HasGiven (D.content disk.old) (D.block_count disk.old) header frames.old [] →
        HasTallied (D.content disk.old) header tally →
        OnErr result (IfSome (D.content disk.old) (λ held.
        TakesFront (concat (pages_of
        (saved_frames (chain_format (as_it_reads held) header) (chain_page (as_it_reads held) header))))
        (S.taken out.old) (S.taken out.new))) }
    ensures stopped { (header : ℕ) →
        HasGiven (D.content disk.old) (D.block_count disk.old) header frames.old [] →
        HasTallied (D.content disk.old) header tally →
        IfErr result (IsStopped (D.content disk.old) (D.block_count disk.old) header
        (D.faults disk.old) (D.faults disk.new) (R.told report.old) (R.told report.new)
        (S.faults out.old) (S.faults out.new)) }
    ensures late { (old new : Option (List ℕ)) → IfErr result (IsUnwritten old new) }
    ensures counted { S.faults out.old ≤ S.faults out.new }
    ensures content { D.content disk.new ≡ D.content disk.old }
    ensures faults { D.faults disk.old ≤ D.faults disk.new }
    ensures orders { D.orders disk.new ≡ D.orders disk.old }
    ensures blocks { D.block_count disk.new ≡ D.block_count disk.old }
{
    let mut page = Page::zero();
    for _ in 0..tally.frames {
        match frames.next(disk, report, &mut page) {
            Next::Frame(_) => put_all(out, page.as_bytes())?,
            Next::End => return Err(Stop::Changed),
            Next::Refused => return Err(Stop::Refused),
        }
    }
    match frames.next(disk, report, &mut page) {
        Next::Frame(_) => Err(Stop::Changed),
        Next::End => Ok(()),
        Next::Refused => Err(Stop::Refused),
    }
}
