ghost use Rattle.std.specs.Prelude.{◌≡◌, ◌⊎◌, ℕ, ◌<◌, None, IsTrue, IsErr, IsErrAnd, OnOk, IfOk, IfErr, IfSome};
ghost use Rattle.definitions.specs.Disk.{Content, DiskImage, as_it_reads, block, Changes, SameOutside, Syncs};
ghost use Rattle.definitions.specs.SwapHeader.{taken_back};
ghost use Rattle.image_format.specs.AreaKind.{area_kind};
ghost use Rattle.plain_machine.specs.UsableArea.{kind_fault};
ghost use Rattle.stream_in.specs.Area.{first_block};
ghost use Rattle.stream_in.specs.Moments.{AddsNoImage, TriesMark, ElapsesAlike, LiesOver, ElapsesTrying};
ghost use Rattle.stream_in.specs.Moments.{ElapsesOverMark};
ghost use Rattle.stream_in.specs.Calls.{HasCalled, AtMost};
ghost use Rattle.stream_in.specs.Ending.{StopsMark};
ghost use Rattle.stream_in.specs.Marked.{HasHeader, Marks, FailsToMark};
ghost use Rattle.stream_in.specs.declared.stop.InStop.TheVariants as stop;
ghost use Rattle.plain_machine.specs.declared.reply.Left.TheVariants as left;
ghost use Rattle.stream_in.specs.Stops.{IsDiskStop, IsOfHeader, IfNoSwap};

use crate::InStop;
use crate::area::version_1;
use image_format::{AreaKind, SF_NOCOMPRESS_MODE, mark, take_back};
use page_core::{Failed, Page};
use plain_machine::Left;
use sector_disk::Disk;

/// Reads the header block, which counts as zeros on a disk without blocks.
pub(crate) fn read_header<D: Disk>(disk: &mut D) -> Result<Page, InStop>
    ensures header { IfOk result (λ page. IfSome (D.content disk.old)
        (λ held. page ≡ first_block (D.block_count disk.old) (as_it_reads held))) }
    ensures refused { IfErr result (λ why. why ≡ stop.ReadFault left.Same) }
    ensures content { D.content disk.new ≡ D.content disk.old }
    ensures called { HasCalled D.Disk (AtMost 1) (IsErr result) disk.old disk.new }
    ensures time { IsTrue (D.tells_moments disk.old) →
        ElapsesAlike (D.moment disk.old) (D.moment disk.new) (D.left_since disk.old) (D.left_since disk.new) }
{
    let mut header = Page::zero();
    if disk.blocks() == 0 {
        return Ok(header);
    }
    match disk.read(0, &mut header) {
        Ok(()) => Ok(header),
        Err(Failed) => Err(InStop::ReadFault(Left::Same)),
    }
}

/// Syncs the image's blocks, and marks the header block with `first`, the block of the first map.
pub(crate) fn mark_image<D: Disk>(disk: &mut D, first: u32) -> Result<(), InStop>
    requires { 0 < D.block_count disk.old }
    ensures marked { OnOk result (Changes (Marks first) (D.content disk.old) (D.content disk.new)) }
    ensures stopped { StopsMark IsOfHeader result (D.content disk.old) (D.content disk.new) }
    ensures called { HasCalled D.Disk (AtMost 6) (IsErrAnd result IsDiskStop) disk.old disk.new }
    ensures tried { IfSome (D.content disk.old) (λ held. IfSome (D.content disk.new) (TriesMark first held)) }
    ensures time { IsTrue (D.tells_moments disk.old) → IfSome (D.content disk.old) (λ held.
        ElapsesOverMark first (D.moment disk.old) (D.moment disk.new) (D.left_since disk.old) (D.left_since disk.new)
        held) }
{
    let header = header_to_mark(disk)?;
    let marked = mark(&header, u64::from(first), SF_NOCOMPRESS_MODE, 0);
    write_mark(disk, &marked)
}

/// Syncs, and reads the header block, which must be that of an area without an image.
fn header_to_mark<D: Disk>(disk: &mut D) -> Result<Page, InStop>
    requires { 0 < D.block_count disk.old }
    ensures area { IfOk result (λ page. kind_fault (area_kind page) ≡ None) }
    ensures header { IfOk result (λ page. IfSome (D.content disk.old) (λ held. page ≡ block (as_it_reads held) 0)) }
    ensures synced { OnOk result (Changes Syncs (D.content disk.old) (D.content disk.new)) }
    ensures stopped { StopsMark IsOfHeader result (D.content disk.old) (D.content disk.new) }
    ensures called { HasCalled D.Disk (AtMost 2) (IsErrAnd result IsDiskStop) disk.old disk.new }
    ensures images { Changes AddsNoImage (D.content disk.old) (D.content disk.new) }
    ensures time { IsTrue (D.tells_moments disk.old) →
        ElapsesAlike (D.moment disk.old) (D.moment disk.new) (D.left_since disk.old) (D.left_since disk.new) }
{
    match disk.sync() {
        Ok(()) => {}
        Err(Failed) => return Err(InStop::SyncFault(Left::Same)),
    }
    let header = read_header(disk)?;
    match version_1(AreaKind::read(&header)) {
        Ok(_) => Ok(header),
        Err(why) => Err(InStop::NoSwap(why)),
    }
}

/// Writes the marked header block and syncs; if either fails, undoes the mark.
fn write_mark<D: Disk>(disk: &mut D, marked: &Page) -> Result<(), InStop>
    requires { 0 < D.block_count disk.old }
    ensures marked { OnOk result (Changes (HasHeader marked.now) (D.content disk.old) (D.content disk.new)) }
    ensures leaves { IfErr result (λ why. Changes (FailsToMark marked.now why) (D.content disk.old)
        (D.content disk.new)) }
    ensures stops { IfErr result (λ why. IsOfHeader why) }
    ensures no_swap { IfErr result (λ why. IfNoSwap why (λ reason. ⊥)) }
    ensures called { HasCalled D.Disk (AtMost 4) (IsErrAnd result IsDiskStop) disk.old disk.new }
    ensures lies { (u : DiskImage) → IfSome (D.content disk.old) (LiesOver marked.now u) →
        IfSome (D.content disk.new) (LiesOver marked.now u) }
    ensures time { IsTrue (D.tells_moments disk.old) → (u : DiskImage) →
        IfSome (D.content disk.old) (LiesOver marked.now u) →
        ElapsesTrying marked.now u (D.moment disk.old) (D.moment disk.new) (D.left_since disk.old)
        (D.left_since disk.new) }
{
    marked.is_page();
    match disk.write(0, marked) {
        Ok(()) => {}
        Err(Failed) => return Err(InStop::WriteFault(undo(disk, marked))),
    }
    match disk.sync() {
        Ok(()) => Ok(()),
        Err(Failed) => Err(InStop::SyncFault(undo(disk, marked))),
    }
}

/// Writes the header block taken back, and syncs. Returns what is then left of the mark.
fn undo<D: Disk>(disk: &mut D, marked: &Page) -> Left
    requires { 0 < D.block_count disk.old }
    ensures left { (result ≡ left.Gone) ⊎ (result ≡ left.Unsure) }
    ensures gone { result ≡ left.Gone →
        Changes (HasHeader (taken_back marked.now)) (D.content disk.old) (D.content disk.new) }
    ensures unsure { result ≡ left.Unsure → Changes (SameOutside 0) (D.content disk.old) (D.content disk.new) }
    ensures called { HasCalled D.Disk (AtMost 2) (result ≡ left.Unsure) disk.old disk.new }
    ensures lies { (u : DiskImage) → IfSome (D.content disk.old) (LiesOver marked.now u) →
        IfSome (D.content disk.new) (LiesOver marked.now u) }
    ensures time { IsTrue (D.tells_moments disk.old) → (u : DiskImage) →
        IfSome (D.content disk.old) (LiesOver marked.now u) →
        ElapsesTrying marked.now u (D.moment disk.old) (D.moment disk.new) (D.left_since disk.old)
        (D.left_since disk.new) }
{
    let back = take_back(marked);
    back.is_page();
    match disk.write(0, &back) {
        Ok(()) => {}
        Err(Failed) => return Left::Unsure,
    }
    match disk.sync() {
        Ok(()) => Left::Gone,
        Err(Failed) => Left::Unsure,
    }
}
