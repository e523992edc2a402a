ghost use Rattle.std.specs.Prelude.{◌≡◌, ◌<◌, ◌≤◌, List, IfSome, IfOk, IfErr, IsTrue, Ok, Err};
ghost use Rattle.definitions.specs.Disk.{DiskImage, HasRisen};
ghost use Rattle.image_cli.specs.Crashes.{IsCrash};
ghost use Rattle.image_cli.specs.Unmarks.{Ends, Fails, LeavesNoImage};

use image_format::{is_marked, take_back};
use page_core::Page;
use sector_disk::Disk;
use thiserror::Error;

/// What became of an image that was to be discarded.
#[derive(Clone, Copy, Debug, PartialEq, Eq)]
pub enum Discarded {
    /// The mark was taken back, and the write synced.
    Done,
    /// There is no header block, or it has no mark. Nothing was written.
    NoImage,
    /// `orig_sig` is the signature of an image too, so there is nothing to take the mark back to. Nothing was written.
    NoOriginal,
}

/// A call of the disk that failed. Each variant says what that leaves.
#[derive(Clone, Copy, Debug, PartialEq, Eq, Error)]
pub enum Fault {
    /// Nothing was written.
    #[error("read fault same")]
    Read,
    /// Each sector of the header block is either as before or taken back.
    #[error("write fault unsure")]
    Write,
    /// The mark is taken back as the disk reads, but a power cut may still bring it back.
    #[error("sync fault unsure")]
    Sync,
}

/// Takes back the mark of the area whose header lies in block `header`, whatever kernel the image is of and however it
/// is saved: `sig` gets `orig_sig`, and all other bytes of the disk stay (`swsusp_check`, kernel/power/swap.c).
pub fn discard<D: Disk>(disk: &mut D, header: u32) -> Result<Discarded, Fault>
    ensures ends { IfOk result (Ends header (D.block_count disk.old) (D.content disk.old) (D.content disk.new)) }
    ensures unmarked { result ≡ Ok Discarded.Done → IfSome (D.content disk.new) (LeavesNoImage header) }
    ensures fails { IfErr result (Fails header (D.content disk.old) (D.content disk.new)) }
    ensures crash { IsTrue (D.tells_moments disk.old) → (v : DiskImage) → D.left_since disk.new (D.moment disk.old) v →
        IfSome (D.content disk.old) (λ held. IsCrash header held v) }
    ensures cause { IfErr result (λ fault. HasRisen (D.faults disk.old) (D.faults disk.new)) }
    ensures faults { D.faults disk.old ≤ D.faults disk.new }
    ensures orders { D.orders disk.new ≡ D.orders disk.old }
    ensures blocks { D.block_count disk.new ≡ D.block_count disk.old }
{
    if header >= disk.blocks() {
        return Ok(Discarded::NoImage);
    }
    let mut page = Page::zero();
    if disk.read(header, &mut page).is_err() {
        return Err(Fault::Read);
    }
    if !is_marked(&page) {
        return Ok(Discarded::NoImage);
    }
    let back = take_back(&page);
    if is_marked(&back) {
        return Ok(Discarded::NoOriginal);
    }
    if disk.write(header, &back).is_err() {
        return Err(Fault::Write);
    }
    match disk.sync() {
        Ok(()) => Ok(Discarded::Done),
        Err(_) => Err(Fault::Sync),
    }
}
