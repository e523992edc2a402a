ghost use Rattle.std.specs.Prelude.{◌≡◌, ℕ, ◌+◌, ◌-◌, ◌<◌, ◌≤◌, ◌↔◌, ◌++◌, [], length, Some, None, Ok, Err, IsOk, IfOk};
ghost use Rattle.std.specs.Prelude.{IfErr, IfSome, OnOk, OnErr, MatchResult, IsTrue, List, Option};
ghost use Rattle.std.specs.Option.{option_copied};
ghost use Rattle.definitions.specs.Zones.{numbers, first_from};
ghost use Rattle.definitions.specs.Disk.{DiskImage, block, raised};
ghost use Rattle.definitions.specs.InfoPage.{info_of};
ghost use Rattle.plain_machine.specs.Machine.{Hardware};
ghost use Rattle.plain_machine.specs.declared.event.IdentCheck.{IdentCheck};
ghost use Rattle.plain_machine.specs.Trace.{first_map, info_in, place, place_count};
ghost use Rattle.plain_machine.specs.Chain.{map_fault};
ghost use Rattle.sector_disk.specs.Called.{Called, AtMostOneCall};
ghost use Rattle.image_read.specs.Reading.{Reading};
ghost use Rattle.image_read.specs.Kept.{kept_reading, IsKept};

use crate::area::Area;
use crate::cause::Cause;
use definitions::{BLOCKS_PER_MAP, WORDS_PER_PAGE};
use frame_sets::packing::Unpack;
use frame_sets::{Bitmap, Zones};
use image_format::info::{Ident, Info, check, counts, decode};
use image_format::{ChainFault, MapReader};
use page_core::{Format, Page};
use plain_machine::image_reads;
use sector_disk::Disk;
use std::marker::Model;
use swap_slots::FileMap;

/// The machine that an image must be of, by its zones and, if that is compared, by its identity.
#[derive(Clone, Copy)]
pub struct Expected<'a> {
    pub zones: &'a Zones,
    pub ident: Option<&'a Ident>,
}

/// What a step of a reader returns.
#[derive(Clone, Copy)]
pub enum ReadStep {
    /// A map, the info page or a number page was read. `k` steps have been made.
    More { k: u32 },
    /// The saved page of this page frame was read.
    Page { pfn: u32 },
    /// Every page of the stream had been read before.
    Done,
    /// The disk failed.
    Fault,
    /// The image can't be read.
    Refused(Cause),
}

/// A reader of an image, which reads one block a step.
#[derive(Drop)]
pub struct Reader {
    area: Area,
    format: Format,
    /// The number of blocks read.
    steps: u32,
    /// The block to read next.
    block: u32,
    /// The map that the entries are taken from.
    map: MapReader,
    /// The number of pages of the stream; 1 until the info page gives it.
    pages: u32,
    /// The number of page frames that were saved; 0 until the info page gives it.
    saved: u32,
    numbers: Unpack,
    listed: Option<u32>,
    /// No page frame whose page is still to be read is below this one.
    frame: u32,
}

impl Model for Reader {
    ghost Value = { Reading };

    ghost view = { kept_reading };

    ghost invariant = { IsKept };
}

impl Reader {
    ghost use Rattle.image_read.specs.Reading.{Reading, HasReadAll, IsReady};
    ghost use Rattle.image_read.specs.Causes.{reply_of};
    ghost use Rattle.image_read.specs.Faults.{first_fault, info_fault, pages_fault, named_fault, named_block};
    ghost use Rattle.image_read.specs.Faults.{chain_fault, block_named};
    ghost use Rattle.frame_sets.specs.Numbers.{wanted, numbers_in, marked_in};
    ghost use Rattle.image_read.specs.Taking.{Takes, Advances, with_data, after_frame, with_info, with_numbers};
    ghost use Rattle.image_read.specs.Taking.{numbers_fault};
    ghost use Rattle.image_read.specs.Stream.{IsAreaOf, HasReadPlaces, place_block};
    ghost use Rattle.image_read.specs.Answers.{Compares, Reads, Gives, Answers, GoesOn};
    ghost use Rattle.image_read.specs.Stays.{StaysOver, IsUntouched};
    ghost use Rattle.image_read.specs.declared.cause.Cause.{Cause};

    /// Begins with the fields of the header block: `first` is the block of the first map, `last` the last slot. The
    /// disk has `blocks` blocks. The reader keeps a copy of the file map.
    pub fn begin(
        first: u64,
        map: &FileMap,
        last: u32,
        blocks: u32,
        format: Format,
    ) -> Result<Reader, Cause>
        ensures ok { IsOk result ↔ (first_fault map.now blocks last first ≡ None) }
        ensures refused { (cause : Cause) →
            (result ≡ Err cause) ↔ (first_fault map.now blocks last first ≡ Some cause) }
        ensures chain { (h : Hardware) (v : DiskImage) → IsAreaOf h v map.now last blocks format →
            MatchResult result (λ r. map_fault h v first 0 ≡ None)
            (λ cause. map_fault h v first 0 ≡ Some (reply_of cause)) }
        ensures ready { IfOk result (λ r. IsReady r [] []) }
        ensures blocks { IfOk result (λ r. r.blocks ≡ blocks) }
        ensures reading { (h : Hardware) (v : DiskImage) (check : IdentCheck) →
            IsAreaOf h v map.now last blocks format → first ≡ first_map h v →
            IfOk result (λ r. HasReadPlaces h v check r 0 [] []) }
    {
        if first == 0 {
            return Err(Cause::NoChain);
        }
        let area = Area {
            map: *map,
            last,
            blocks,
        };
        let block = area.checked(first)?;
        Ok(Reader {
            area,
            format,
            steps: 0,
            block,
            map: MapReader::of(&Page::zero(), 0),
            pages: 1,
            saved: 0,
            numbers: Unpack::begin(0, format),
            listed: None,
            frame: 0,
        })
    }

    /// Returns how many page frames the image saves, once its last number page was accepted.
    pub fn listed(&self) -> Option<u32>
        ensures { result ≡ self.now.listed }
    {
        self.listed
    }

    /// Returns whether every page of the stream was read.
    pub fn over(&self) -> bool
        ensures over { IsTrue result ↔ HasReadAll self.now }
        ensures whole { (h : Hardware) (v : DiskImage) (check : IdentCheck) (t : ℕ) (origs zeros : List ℕ) →
            HasReadPlaces h v check self.now t origs zeros →
            IsTrue result ↔ ((2 ≤ t) × (t ≡ place_count (info_in h v).pages)) }
    {
        self.steps == self.places()
    }

    /// Reads the next block. A number page's page frames go into `origs`, and those without a data page into `zeros`
    /// too. A data page is left in `page`. If the next block is refused and `listed` returns a count, the sets hold all
    /// the page frames of the image, so room for its pages can be planned.
    pub fn step<D: Disk>(
        &mut self,
        disk: &mut D,
        expected: &Expected,
        origs: &mut Bitmap,
        zeros: &mut Bitmap,
        page: &mut Page,
    ) -> ReadStep
        requires ready { IsReady self.old origs.old.members zeros.old.members }
        requires blocks { self.old.blocks ≤ D.block_count disk.old }
        requires zones { origs.old.zones ≡ expected.now.zones.now }
        requires same_zones { zeros.old.zones ≡ expected.now.zones.now }

        // What the step returns, over a disk that tells its content.
        ensures answers { (h : Hardware) (v : DiskImage) (check : IdentCheck) (t : ℕ) →
            HasReadPlaces h v check self.old t origs.old.members zeros.old.members → Reads h v (D.content disk.old) →
            expected.now.zones.now ≡ h.zones → Compares h check (option_copied expected.now.ident) →
            Answers h v check t result self.old self.new origs.new.members zeros.new.members page.new }

        // Over every disk.
        ensures done { (result ≡ ReadStep.Done) ↔ HasReadAll self.old }
        ensures untouched { HasReadAll self.old → IsUntouched self.old self.new origs.old origs.new zeros.old zeros.new
            page.old page.new disk.old disk.new }
        ensures goes_on { GoesOn result self.old self.new origs.new.members zeros.new.members }
        ensures stays { StaysOver self.old self.new origs.old origs.new zeros.old zeros.new }
        ensures read { (HasReadAll self.old → ⊥) → D.calls disk.new ≡ raised (D.calls disk.old) }
        ensures called { Called D.Disk AtMostOneCall (result ≡ ReadStep.Fault) disk.old disk.new }
        ensures content { D.content disk.new ≡ D.content disk.old }
    {
        if self.over() {
            return ReadStep::Done;
        }
        if disk.read(self.block, page).is_err() {
            return ReadStep::Fault;
        }
        match self.take(page, expected, origs, zeros) {
            Ok(Some(pfn)) => ReadStep::Page { pfn },
            Ok(None) => ReadStep::More { k: self.steps },
            Err(cause) => ReadStep::Refused(cause),
        }
    }

    /// Returns how many blocks there are to read: the pages, and a map before every 511 of them.
    fn places(&self) -> u32
        ensures { result ≡ place_count self.now.pages }
    {
        image_reads(self.pages)
    }

    /// Accepts the block just read and finds the next. Returns its page frame, if it is a saved page.
    fn take(
        &mut self,
        page: &Page,
        expected: &Expected,
        origs: &mut Bitmap,
        zeros: &mut Bitmap,
    ) -> Result<Option<u32>, Cause>
        requires ready { IsReady self.old origs.old.members zeros.old.members }
        requires more { self.old.steps < place_count self.old.pages }
        requires zones { origs.old.zones ≡ expected.now.zones.now }
        requires same_zones { zeros.old.zones ≡ expected.now.zones.now }
        ensures gives { (h : Hardware) (v : DiskImage) (check : IdentCheck) (t : ℕ) →
            HasReadPlaces h v check self.old t origs.old.members zeros.old.members →
            page.now ≡ block v (place_block h v (place t)) →
            expected.now.zones.now ≡ h.zones → Compares h check (option_copied expected.now.ident) →
            Gives h v check t result self.new origs.new.members zeros.new.members }
        ensures ready { IfOk result (λ frame. IsReady self.new origs.new.members zeros.new.members) }
        ensures counted { IfOk result (λ frame. self.new.steps ≡ self.old.steps + 1) }
        ensures stays { StaysOver self.old self.new origs.old origs.new zeros.old zeros.new }
    {
        let pfn = self.accept(page, expected, origs, zeros)?;
        self.advance()?;
        Ok(pfn)
    }

    /// Accepts the block just read, by its place.
    fn accept(
        &mut self,
        page: &Page,
        expected: &Expected,
        origs: &mut Bitmap,
        zeros: &mut Bitmap,
    ) -> Result<Option<u32>, Cause>
        requires ready { IsReady self.old origs.old.members zeros.old.members }
        requires more { self.old.steps < place_count self.old.pages }
        requires zones { origs.old.zones ≡ expected.now.zones.now }
        requires same_zones { zeros.old.zones ≡ expected.now.zones.now }
        ensures takes { Takes (option_copied expected.now.ident) expected.now.zones.now page.now self.old
            origs.old.members zeros.old.members result self.new origs.new.members zeros.new.members }
        ensures saved { IfOk result (λ frame. self.new.saved ≤ 65536) }
        ensures stays { StaysOver self.old self.new origs.old origs.new zeros.old zeros.new }
    {
        if self.steps % BLOCKS_PER_MAP == 0 {
            self.map = MapReader::of(page, self.steps / BLOCKS_PER_MAP + 1);
            return Ok(None);
        }
        if self.steps == 1 {
            self.accept_info(page, expected)?;
            return Ok(None);
        }
        if self.listed.is_none() {
            self.accept_numbers(page, expected.zones, origs, zeros)?;
            return Ok(None);
        }
        Ok(self.next_frame(origs, zeros))
    }

    /// Accepts the info page.
    fn accept_info(&mut self, page: &Page, expected: &Expected) -> Result<(), Cause>
        ensures ok { IsOk result ↔ (info_fault (option_copied expected.now.ident)
            (length (numbers expected.now.zones.now)) self.old.format (info_of page.now) ≡ None) }
        ensures fault { IfErr result (λ cause. info_fault (option_copied expected.now.ident)
            (length (numbers expected.now.zones.now)) self.old.format (info_of page.now) ≡ Some cause) }
        ensures info { OnOk result (self.new ≡ with_info self.old (info_of page.now)) }
        ensures saved { OnOk result (self.new.saved ≤ 65536) }
        ensures same { OnErr result (self.new ≡ self.old) }
    {
        let info = decode(page);
        test_info(&info, expected, self.format)?;
        self.pages = info.pages as u32;
        self.saved = info.image_pages as u32;
        self.numbers = Unpack::begin(self.saved, self.format);
        Ok(())
    }

    /// Accepts the next number page.
    fn accept_numbers(
        &mut self,
        page: &Page,
        zones: &Zones,
        origs: &mut Bitmap,
        zeros: &mut Bitmap,
    ) -> Result<(), Cause>
        requires ready { IsReady self.old origs.old.members zeros.old.members }
        requires wanted { self.old.numbers.read < self.old.saved }
        requires zones { origs.old.zones ≡ zones.now }
        requires same_zones { zeros.old.zones ≡ zones.now }
        ensures ok { IsOk result ↔ (numbers_fault zones.now self.old zeros.old.members page.now ≡ None) }
        ensures fault { IfErr result (λ cause. numbers_fault zones.now self.old zeros.old.members page.now ≡ Some
            cause) }
        ensures numbers { OnOk result (self.new ≡ with_numbers self.old page.now) }
        ensures origs { OnOk result (origs.new.members ≡ origs.old.members
            ++ numbers_in self.old.numbers page.now (wanted self.old.numbers)) }
        ensures zeros { OnOk result (zeros.new.members ≡ zeros.old.members
            ++ marked_in self.old.numbers page.now (wanted self.old.numbers)) }
        ensures listed { OnErr result (self.new.listed ≡ self.old.listed) }
        ensures stays { StaysOver self.old self.new origs.old origs.new zeros.old zeros.new }
    {
        self.numbers.feed(page, zones, origs, zeros)?;
        if origs.len() == self.saved {
            self.test_listed(zeros.len())?;
            self.listed = Some(self.saved);
        }
        Ok(())
    }

    /// Checks that the stream has as many pages as the frame numbers call for, if `zeros` of them have no data page.
    fn test_listed(&self, zeros: u32) -> Result<(), Cause>
        requires { self.now.saved ≤ 65536 }
        ensures ok { IsOk result ↔ (pages_fault self.now.saved self.now.pages zeros ≡ None) }
        ensures fault { IfErr result (λ cause. pages_fault self.now.saved self.now.pages zeros ≡ Some cause) }
    {
        let data = self.saved.saturating_sub(zeros);
        if self.pages != data + self.saved.div_ceil(WORDS_PER_PAGE) + 1 {
            return Err(Cause::BadCounts {
                image_pages: u64::from(self.saved),
                pages: u64::from(self.pages),
            });
        }
        Ok(())
    }

    /// Returns the next page frame whose page is in the stream.
    fn next_frame(&mut self, origs: &Bitmap, zeros: &Bitmap) -> Option<u32>
        ensures frame { result ≡ first_from (with_data origs.now.members zeros.now.members) self.old.frame }
        ensures after { self.new ≡ record self.old { frame = after_frame self.old.frame result } }
    {
        let found = next_with_data(origs, zeros, self.frame);
        if let Some(p) = found {
            self.frame = p + 1;
        }
        found
    }

    /// Counts the step, and finds the next block, if there is one.
    fn advance(&mut self) -> Result<(), Cause>
        requires { self.old.steps < place_count self.old.pages }
        ensures advances { Advances self.old result self.new }
        ensures block { IfOk result (λ x. (self.old.block < self.old.blocks) → self.new.block < self.new.blocks) }
        ensures blocks { self.new.blocks ≡ self.old.blocks }
    {
        self.steps += 1;
        if self.steps < self.places() {
            self.block = self.next_block()?;
        }
        Ok(())
    }

    /// Returns the block of the next place, which the map names.
    fn next_block(&self) -> Result<u32, Cause>
        ensures ok { IsOk result ↔ (named_fault self.now self.now.steps ≡ None) }
        ensures fault { IfErr result (λ cause. named_fault self.now self.now.steps ≡ Some cause) }
        ensures block { IfOk result (λ block. block ≡ named_block self.now self.now.steps) }
        ensures below { IfOk result (λ block. block < self.now.blocks) }
    {
        let place = self.steps % BLOCKS_PER_MAP;
        if place == 0 {
            return self.test(self.map.next(u32::MAX));
        }
        self.test(self.map.entry(place - 1, u32::MAX))
    }

    /// Returns the block that a map names, unless it is at fault.
    fn test(&self, named: Result<u32, ChainFault>) -> Result<u32, Cause>
        ensures ok { IsOk result ↔ (chain_fault self.now named ≡ None) }
        ensures fault { IfErr result (λ cause. chain_fault self.now named ≡ Some cause) }
        ensures block { IfOk result (λ block. block ≡ block_named named) }
        ensures below { IfOk result (λ block. block < self.now.blocks) }
    {
        match named {
            Ok(block) => self.area.checked(u64::from(block)),
            Err(ChainFault::BadBlock { block }) => self.area.checked(block),
            Err(ChainFault::ChainEnds { map }) => Err(Cause::ChainEnds { map }),
        }
    }
}

ghost use Rattle.image_read.specs.Faults.{info_fault, identity_fault};
ghost use Rattle.image_read.specs.Reading.{FitsIn};
ghost use Rattle.image_read.specs.Taking.{with_data};

/// Returns the least page frame from `from` on that is in `origs` and not in `zeros`.
fn next_with_data(origs: &Bitmap, zeros: &Bitmap, from: u32) -> Option<u32>
    ensures frame { result ≡ first_from (with_data origs.now.members zeros.now.members) from }
    ensures few { IfSome result (λ p. p < 65536) }
{
    for p in origs.iter_from(from) {
        if !zeros.has(p) {
            return Some(p);
        }
    }
    None
}

/// Checks that an image is of the expected machine, and that its counts fit.
#[tactic(auto, unfolding(crate::specs::Faults::info_fault))]
fn test_info(info: &Info, expected: &Expected, format: Format) -> Result<(), Cause>
    ensures ok { IsOk result ↔ (info_fault (option_copied expected.now.ident) (length (numbers expected.now.zones.now))
        format info.now ≡ None) }
    ensures fault { IfErr result (λ cause. info_fault (option_copied expected.now.ident)
        (length (numbers expected.now.zones.now)) format info.now ≡ Some cause) }
    ensures fits { OnOk result (FitsIn 65536 info.now) }
{
    if let Some(ident) = expected.ident {
        test_ident(info, ident)?;
    }
    let own = expected.zones.count();
    if info.physpages != u64::from(own) {
        return Err(Cause::MemorySize {
            image: info.physpages,
            own: u64::from(own),
        });
    }
    counts(info, own, format)?;
    Ok(())
}

/// Checks that an image is of this machine.
fn test_ident(info: &Info, ident: &Ident) -> Result<(), Cause>
    ensures ok { IsOk result ↔ (identity_fault (Some ident.now) info.now ≡ None) }
    ensures fault { IfErr result (λ cause. identity_fault (Some ident.now) info.now ≡ Some cause) }
{
    match check(info, ident) {
        Ok(()) => Ok(()),
        Err(field) => Err(Cause::Mismatch { field }),
    }
}
