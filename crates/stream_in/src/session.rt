ghost use Rattle.std.specs.Prelude.{◌≡◌, ◌≤◌, ◌<◌, ℕ, ◌+◌, ◌-◌, ◌*◌, ◌/◌, ◌%◌, ◌++◌, ◌∷◌, List, [], Some};
ghost use Rattle.std.specs.Prelude.{None, Err, IsSome, IsTrue, IsErrAnd, IfOk, IfErr, IfSome, length};
ghost use Rattle.definitions.specs.Disk.{as_it_reads};
ghost use Rattle.image_format.specs.AreaKind.{area_kind};
ghost use Rattle.stream_in.specs.Area.{first_block, open_fault};
ghost use Rattle.image_format.specs.declared.signature.area.Area.{Area as AreaValue};
ghost use Rattle.image_format.specs.declared.signature.area.AreaKind.TheVariants as kind;
ghost use Rattle.definitions.specs.FileMaps.{IsFileMap};
ghost use Rattle.stream_in.specs.Calls.{HasCalled, AtMost};
ghost use Rattle.stream_in.specs.Moments.{ElapsesAlike, ElapsesOutside};
ghost use Rattle.stream_in.specs.Holding.{IsReadyFor};
ghost use Rattle.image_write.specs.Writing.{Writing};

use crate::area::usable;
use crate::header::{mark_image, read_header};
use crate::putting::put_full;
use crate::slots::SlotMemory;
use crate::{Checker, InStop};
use image_format::{Area, AreaKind};
use image_write::Writer;
use page_core::Page;
use sector_disk::Disk;
use std::alloc::Global;
use swap_slots::FileMap;

/// The bytes of a page.
const PAGE: usize = 4096;

/// An import of an image: a stream of bytes whose pages are written into the swap area at the disk's first blocks as
/// soon as they are full. It takes all its memory when it is opened, and finds free slots in a slot table of its own.
#[derive(Drop)]
pub struct StreamIn {
    memory: SlotMemory,
    map: FileMap,
    /// How many blocks the disk had when it was opened.
    blocks: u32,
    checker: Checker,
    writer: Option<Writer>,
    /// The page that is being filled.
    page: [u8; 4096],
    stop: Option<InStop>,
}

impl StreamIn {
    ghost use Rattle.stream_in.specs.declared.checking.fault.StreamFault.{StreamFault};
    ghost use Rattle.stream_in.specs.Stops.{IsDiskStop, IsOfOpen, IsOfFeed, IsOfFinish, IfNoSwap};
    ghost use Rattle.stream_in.specs.Slots.{HasSlotsOf};
    ghost use Rattle.stream_in.specs.Session.{IsOpened, IsFed, IsGoing, IsSession, TakesInto};
    ghost use Rattle.stream_in.specs.Pieces.{AnswersPiece, WritesPiece, FillsArea, LeavesMoments, StaysOn};
    ghost use Rattle.stream_in.specs.Pieces.{AtMostByPages};
    ghost use Rattle.stream_in.specs.Ending.{EndsStream, MarksStream, StopsMark, LeavesMark};
    ghost use Rattle.stream_in.specs.declared.stop.InStop.{InStop};
    ghost use Rattle.stream_in.specs.declared.stop.InStop.TheVariants as stop;

    /// Opens an import. Reads the header block of the disk's area, which must be a version 1 area without an image.
    pub fn open<D: Disk>(alloc: Global, disk: &mut D) -> Result<StreamIn, InStop>
        ensures opened { IfOk result (λ s. (area : AreaValue) × IsOpened area (D.block_count disk.old) s
            × IfSome (D.content disk.old)
            (λ held. area_kind (first_block (D.block_count disk.old) (as_it_reads held)) ≡ kind.Swap area)) }
        ensures ready { IfOk result (λ s. (area : AreaValue) × (free : List ℕ) × TakesInto area free [] s
            × IfSome (D.content disk.old)
            (λ held. IsReadyFor area free [] (as_it_reads held))) }
        ensures usable { IfOk result (λ s. IfSome (D.content disk.old)
            (λ held. open_fault (D.block_count disk.old)
            (area_kind (first_block (D.block_count disk.old) (as_it_reads held))) ≡ None)) }
        ensures no_swap { IfErr result (λ why. IfNoSwap why (λ reason. IfSome (D.content disk.old)
            (λ held. open_fault (D.block_count disk.old)
            (area_kind (first_block (D.block_count disk.old) (as_it_reads held))) ≡ Some reason))) }
        ensures stops { IfErr result (λ why. IsOfOpen why) }
        ensures untouched { result ≡ Err stop.NoMemory → disk.new ≡ disk.old }
        ensures session { IfOk result (λ s. IsSession s) }
        ensures count { IfOk result (λ s. s.blocks ≡ D.block_count disk.old) }

        ensures content { D.content disk.new ≡ D.content disk.old }
        ensures called { HasCalled D.Disk (AtMost 1) (IsErrAnd result IsDiskStop) disk.old disk.new }
        ensures time { IsTrue (D.tells_moments disk.old) →
            ElapsesAlike (D.moment disk.old) (D.moment disk.new) (D.left_since disk.old) (D.left_since disk.new) }
    {
        let memory = SlotMemory::create(alloc)?;
        let blocks = disk.blocks();
        let header = read_header(disk)?;
        match usable(AreaKind::read(&header), blocks) {
            Ok(area) => Ok(StreamIn::over(memory.with_area(&area), blocks, &area)),
            Err(why) => Err(InStop::NoSwap(why)),
        }
    }

    /// Makes a session over this area, whose slots the memory has, on a disk of `blocks` blocks.
    fn over(memory: SlotMemory, blocks: u32, area: &Area) -> StreamIn
        requires memory { HasSlotsOf area.now memory }
        requires last { area.now.last < blocks }
        ensures { IsOpened area.now blocks result }
    {
        StreamIn {
            memory,
            map: whole_map(area.last + 1),
            blocks,
            checker: Checker::begin(),
            writer: None,
            page: [0; PAGE],
            stop: None,
        }
    }

    /// Returns how many blocks the disk had when the session was opened.
    pub fn blocks(&self) -> u32
        ensures { result ≡ self.now.blocks }
    {
        self.blocks
    }

    /// Takes the next piece of the stream, of any length, and writes each page as it is full. A session that was
    /// stopped returns its stop again and makes no call of the disk.
    pub fn feed<D: Disk>(&mut self, disk: &mut D, piece: &[u8]) -> Result<(), InStop>
        requires session { IsSession self.old }
        requires blocks { D.block_count disk.old ≡ self.old.blocks }

        ensures again { (why : InStop) → self.old.stop ≡ Some why → (result ≡ Err why) × (self.new ≡ self.old)
            × (disk.new ≡ disk.old) }

        ensures answer { AnswersPiece piece.now result self.old self.new }
        ensures stops { IsGoing self.old → IfErr result (λ why. IsOfFeed why) }
        ensures writes { WritesPiece piece.now result self.old (D.content disk.old) (D.content disk.new) }
        ensures fills { FillsArea piece.now result self.old self.new (D.content disk.old) (D.content disk.new) }
        ensures moments { IsTrue (D.tells_moments disk.old) →
            LeavesMoments self.old (D.moment disk.old) (D.moment disk.new) (D.left_since disk.old)
            (D.left_since disk.new) }
        ensures kept { IfErr result (λ why. self.new.stop ≡ Some why) }
        ensures session { IsSession self.new }
        ensures same { StaysOn self.old self.new }

        ensures called { HasCalled D.Disk (AtMostByPages self.old piece.now)
            (IsGoing self.old × IsErrAnd result IsDiskStop) disk.old disk.new }
    {
        if let Some(stop) = self.stop {
            return Err(stop);
        }
        let mut at = 0;
        while at < piece.len() {
            let begun = (self.checker.taken() % 4096) as usize;
            let end = end_of_page(at, begun, piece.len());
            match self.take(disk, begun, &piece[at..end]) {
                Ok(()) => at = end,
                Err(stop) => {
                    self.stop = Some(stop);
                    return Err(stop);
                }
            }
        }
        Ok(())
    }

    /// Takes bytes of one page, after the first `begun` bytes of that page.
    fn take<D: Disk>(&mut self, disk: &mut D, begun: usize, part: &[u8]) -> Result<(), InStop>
        requires session { (free : List ℕ) × (bs : List ℕ) × IsFed free bs self.old × (begun ≡ length bs % 4096) }
        requires part { begun + length part.now ≤ 4096 }
        requires some { 0 < length part.now }
        requires blocks { D.block_count disk.old ≡ self.old.blocks }

        ensures answer { AnswersPiece part.now result self.old self.new }
        ensures stops { IfErr result (λ why. IsOfFeed why) }
        ensures writes { WritesPiece part.now result self.old (D.content disk.old) (D.content disk.new) }
        ensures time { IsTrue (D.tells_moments disk.old) → (free bs : List ℕ) → IsFed free bs self.old →
            ElapsesOutside self.old.map free (D.moment disk.old) (D.moment disk.new) (D.left_since disk.old)
            (D.left_since disk.new) }
        ensures same { StaysOn self.old self.new }

        ensures called { HasCalled D.Disk (AtMost (3 * ((begun + length part.now) / 4096)))
            (IsErrAnd result IsDiskStop) disk.old disk.new }
    {
        self.checker.take(part)?;
        let end = begun + part.len();
        self.page[begun..end].copy_from_slice(part);
        if end < PAGE {
            return Ok(());
        }
        let page = Page::from_bytes(&self.page);
        put_full(&mut self.writer, &mut self.memory, &self.map, disk, &page)?;
        Ok(())
    }

    /// Marks the image, whose pages are all written, and returns how many pages were saved.
    pub fn finish<D: Disk>(self, disk: &mut D) -> Result<u32, InStop>
        requires session { IsSession self }
        requires blocks { D.block_count disk.old ≡ self.blocks }

        ensures again { (why : InStop) → self.stop ≡ Some why → (result ≡ Err why) × (disk.new ≡ disk.old) }

        ensures answer { EndsStream self result }
        ensures untouched { (fault : StreamFault) → result ≡ Err (stop.Stream fault) → disk.new ≡ disk.old }
        ensures marks { MarksStream self result (D.content disk.old) (D.content disk.new) }
        ensures stopped { IsGoing self → StopsMark IsOfFinish result (D.content disk.old) (D.content disk.new) }
        ensures moments { IsTrue (D.tells_moments disk.old) →
            LeavesMark self (D.moment disk.old) (D.moment disk.new) (D.left_since disk.old) (D.left_since disk.new)
            (D.content disk.old) }

        ensures called { HasCalled D.Disk (AtMost 6) (IsGoing self × IsErrAnd result IsDiskStop) disk.old disk.new }
    {
        if let Some(stop) = self.stop {
            return Err(stop);
        }
        let n = self.checker.finish()?;
        let first = first_of(&self.writer);
        match mark_image(disk, first) {
            Ok(()) => Ok(n),
            Err(why) => Err(why),
        }
    }
}

/// Returns the block of the first map.
fn first_of(writer: &Option<Writer>) -> u32
    requires { IsSome writer.now }
    ensures { (w : Writing) → writer.now ≡ Some w → result ≡ w.first }
{
    match writer {
        Some(writer) => writer.first(),
        None => unreachable!(),
    }
}

/// Returns where the current page's bytes end in a piece of `len` bytes. They begin at `at`, after `begun` earlier
/// ones.
fn end_of_page(at: usize, begun: usize, len: usize) -> usize
    requires more { at < len }
    requires begun { begun < 4096 }
    ensures within { result ≤ len }
    ensures some { at < result }
    ensures page { begun + (result - at) ≤ 4096 }
{
    let room = PAGE - begun;
    if len - at < room { len } else { at + room }
}

/// Returns the file map in which each of `slots` slots lies on the block of its number.
fn whole_map(slots: u32) -> FileMap
    requires some { 1 ≤ slots }
    ensures map { result ≡ (0, slots, 0) ∷ [] }
    ensures file_map { IsFileMap ((0, slots, 0) ∷ []) slots }
{
    FileMap::of(&[(0, slots, 0)], slots).unwrap()
}
