ghost use Rattle.std.specs.Prelude.{◌≡◌, ◌⊎◌, ℕ, ◌+◌, ◌<◌, ◌≤◌, ◌^◌, List, Err, IsErr, IsErrAnd, IfErr, OnOk};
ghost use Rattle.std.specs.Prelude.{OnErr, IsSomeAnd, IsTrue, false, length};
ghost use Rattle.definitions.specs.Disk.{Changes};
ghost use Rattle.stream_in.specs.Outside.{IsAtRest, KeepsOutside};
ghost use Rattle.stream_in.specs.Moments.{ElapsesAlike, ElapsesOutside};
ghost use Rattle.plain_machine.specs.declared.reply.Left.TheVariants as left;
ghost use Rattle.plain_machine.specs.Image.{is_map_write, page_of_write};
ghost use Rattle.stream_in.specs.Calls.{HasCalled, AtMost};
ghost use Rattle.image_write.specs.Steps.{HasBegun};
ghost use Rattle.image_write.specs.Answers.{Succeeds};
ghost use Rattle.image_write.specs.Writing.{IsReady, IsWriting, BlocksBelow, writes_of};
ghost use Rattle.stream_in.specs.Holding.{AreOfMap, MakesMore};
ghost use Rattle.stream_in.specs.Putting.{is_map_next, IsPagePut, HasCounts, CanPut, PutsFull, IsAtPage, HasTooFew};
ghost use Rattle.stream_in.specs.Grammar.{all_pages};
ghost use Rattle.definitions.specs.InfoPage.{info_of};
ghost use Rattle.stream_in.specs.Slots.{free_of};
ghost use Rattle.stream_in.specs.Stops.{IsOfPage, IsDiskStop};
ghost use Rattle.stream_in.specs.declared.stop.InStop.TheVariants as stop;

use crate::InStop;
use crate::slots::SlotMemory;
use definitions::{BLOCKS_PER_MAP, MAP_PAGE_ENTRIES, SPARE_SLOTS};
use image_format::info::decode;
use image_write::{WriteStep, Writer};
use page_core::{Failed, Page};
use plain_machine::Left;
use sector_disk::Disk;
use swap_slots::FileMap;

/// Writes a full page, and the maps that follow it. At the first page the writer begins, and the disk is synced before
/// anything is written. The writer stays where it is: a move of it copies some 5 KB.
pub(crate) fn put_full<D: Disk>(
    writer: &mut Option<Writer>,
    memory: &mut SlotMemory,
    map: &FileMap,
    disk: &mut D,
    page: &Page,
) -> Result<(), InStop>
    requires put { (free : List ℕ) × CanPut free memory.old map.now (D.block_count disk.old) page.now writer.old }

    ensures puts { (free : List ℕ) → CanPut free memory.old map.now (D.block_count disk.old) page.now writer.old →
        PutsFull free memory.new map.now page.now writer.old writer.new result (D.content disk.old)
        (D.content disk.new) }
    ensures stops { IfErr result (λ why. IsOfPage why) }
    ensures time { IsTrue (D.tells_moments disk.old) → (free : List ℕ) →
        CanPut free memory.old map.now (D.block_count disk.old) page.now writer.old →
        ElapsesOutside map.now free (D.moment disk.old) (D.moment disk.new) (D.left_since disk.old)
        (D.left_since disk.new) }

    ensures called { HasCalled D.Disk (AtMost 3) (IsErrAnd result IsDiskStop) disk.old disk.new }
{
    let begins = writer.is_none();
    at_page(writer, memory, map, page)?;
    at_rest(disk, begins)?;
    let Some(writer) = writer else { unreachable!() };
    match put_page(writer, memory, disk, page) {
        WriteStep::More { .. } => Ok(()),
        WriteStep::Done => Ok(()),
        WriteStep::Fault => Err(InStop::WriteFault(Left::Same)),
    }
}

/// Syncs the disk before the first page is written, so that it has one image.
fn at_rest<D: Disk>(disk: &mut D, begins: bool) -> Result<(), InStop>
    ensures rested { OnOk result (Changes (IsAtRest begins) (D.content disk.old) (D.content disk.new)) }
    ensures failed { IfErr result (λ why. why ≡ stop.SyncFault left.Same) }
    ensures same { OnErr result (D.content disk.new ≡ D.content disk.old) }
    ensures called { HasCalled D.Disk (AtMost 1) (IsErr result) disk.old disk.new }
    ensures uncalled { begins ≡ false → disk.new ≡ disk.old }
    ensures time { IsTrue (D.tells_moments disk.old) →
        ElapsesAlike (D.moment disk.old) (D.moment disk.new) (D.left_since disk.old) (D.left_since disk.new) }
{
    if !begins {
        return Ok(());
    }
    match disk.sync() {
        Ok(()) => Ok(()),
        Err(Failed) => Err(InStop::SyncFault(Left::Same)),
    }
}

/// Begins the writer of the image, if the page is the first.
fn at_page(
    writer: &mut Option<Writer>,
    memory: &mut SlotMemory,
    map: &FileMap,
    page: &Page,
) -> Result<(), InStop>
    requires put { (free : List ℕ) × (blocks : ℕ) × CanPut free memory.old map.now blocks page.now writer.old }

    ensures ready { (free : List ℕ) (blocks : ℕ) → CanPut free memory.old map.now blocks page.now writer.old →
        OnOk result (IsSomeAnd writer.new
        (λ next. IsAtPage free memory.new map.now blocks page.now writer.old next)) }
    ensures too_few { (free : List ℕ) (blocks : ℕ) → CanPut free memory.old map.now blocks page.now writer.old →
        (told need : ℕ) → result ≡ Err (stop.NoSlots told need) → HasTooFew free page.now writer.old told need }
    ensures stops { IfErr result (λ why. IsOfPage why) }
    ensures no_fault { IfErr result (λ why. IsDiskStop why → ⊥) }
{
    match writer {
        Some(_) => Ok(()),
        None => begin(writer, memory, map, page),
    }
}

/// Begins to write an image with this info page, if enough slots are free. Stands alone, so that only the first page
/// makes room for a writer on the stack.
#[inline(never)]
fn begin(
    writer: &mut Option<Writer>,
    memory: &mut SlotMemory,
    map: &FileMap,
    page: &Page,
) -> Result<(), InStop>
    requires counts { HasCounts page.now }
    requires named { BlocksBelow map.now (free_of memory.old) (length (free_of memory.old)) (2 ^ 32) }

    ensures begun { OnOk result (IsSomeAnd writer.new (λ next.
        HasBegun (info_of page.now) map.now memory.new.table (free_of memory.old) memory.new.frames next)) }
    ensures enough { OnOk result (all_pages page.now + SPARE_SLOTS ≤ length (free_of memory.old)) }
    ensures too_few { IfErr result (λ why. why ≡
        stop.NoSlots (length (free_of memory.old)) (all_pages page.now + SPARE_SLOTS)) }
    ensures fewer { IfErr result (λ why. length (free_of memory.old) < all_pages page.now + SPARE_SLOTS) }
{
    let info = decode(page);
    let need = info.pages as u32 + SPARE_SLOTS;
    let free = memory.table.free_count(&memory.frames, &memory.runs);
    if free < need {
        return Err(InStop::NoSlots { free, need });
    }
    *writer = Some(Writer::begin(
        &mut memory.frames,
        &mut memory.runs,
        &memory.table,
        map,
        &info,
    ));
    Ok(())
}

/// Writes the next page of the stream, the map that it fills, and after the last page the last map.
fn put_page<D: Disk>(
    writer: &mut Writer,
    memory: &mut SlotMemory,
    disk: &mut D,
    page: &Page,
) -> WriteStep
    requires table { writer.old.table ≡ memory.old.table }
    requires writing { IsReady (D.block_count disk.old) memory.old.frames writer.old }
    requires page { is_map_write writer.old.info.pages writer.old.written ≡ false }

    ensures put { (free : List ℕ) → IsWriting free memory.old.frames writer.old → Succeeds result →
        IsPagePut free memory.new writer.old writer.new }
    ensures done { (free : List ℕ) (pages : ℕ → List ℕ) → IsWriting free memory.old.frames writer.old →
        AreOfMap writer.old.extents free
        → BlocksBelow writer.old.extents free (writes_of writer.old.info) (D.block_count disk.old)
        → page.now ≡ pages (page_of_write writer.old.written) → Succeeds result
        → Changes (MakesMore writer.old.extents free writer.old.info.pages pages writer.old.written writer.new.written)
        (D.content disk.old) (D.content disk.new) }
    ensures outside { (free : List ℕ) → IsWriting free memory.old.frames writer.old →
        Changes (KeepsOutside writer.old.extents free) (D.content disk.old) (D.content disk.new) }
    ensures time { IsTrue (D.tells_moments disk.old) → (free : List ℕ) → IsWriting free memory.old.frames writer.old →
        ElapsesOutside writer.old.extents free (D.moment disk.old) (D.moment disk.new) (D.left_since disk.old)
        (D.left_since disk.new) }

    ensures called { HasCalled D.Disk (AtMost 3) (result ≡ WriteStep.Fault) disk.old disk.new }
    ensures first_call { writer.old.written ≡ 0 → 3 ≤ writer.old.info.pages → D.calls disk.new ≤ D.calls disk.old + 1 }
{
    page.is_page();
    let step = writer.put(&mut memory.frames, &mut memory.runs, disk, page);
    if !map_follows(step) {
        return step;
    }
    let step = writer.put(&mut memory.frames, &mut memory.runs, disk, page);
    if !map_follows(step) {
        return step;
    }
    writer.put(&mut memory.frames, &mut memory.runs, disk, page)
}

/// Returns whether the next write is that of a map, which is full or the last one.
fn map_follows(step: WriteStep) -> bool
    ensures { result ≡ is_map_next step }
{
    match step {
        WriteStep::More { k, of } => k % BLOCKS_PER_MAP == MAP_PAGE_ENTRIES
            || (k < of && of - k == 1),
        WriteStep::Done => false,
        WriteStep::Fault => false,
    }
}
