//! An image as it is read, call by call.
ghost use Rattle.std.specs.Prelude.{◌<◌, ◌≤◌, ◌^◌};
ghost use Rattle.definitions.specs.declared.counts.TheConstants.{MAP_PAGE_ENTRIES, WORDS_PER_PAGE};

use crate::call::Call;
use crate::cause::Cause;
use crate::header::{check_hardware, format_of, read_mark};
use crate::info::read_info;
use crate::machine::Machine;
use crate::numbers::{
    NUMBERS, Tally, check_end, check_listed, check_number, frame_of, has_no_data, list_numbers,
    numbers_in_page, one_more,
};
use crate::pages::{following, map_behind, map_named, map_of, page_named, want};
use crate::stage::{Move, Stage};
use image_format::{Mark, take_back};
use page_core::Page;

/// How far an image was read, not counting the pending call.
#[derive(Drop)]
pub struct Reading {
    /// The mark of the header block; zeros until that is read.
    pub mark: Mark,
    /// How many page frames were saved, and how many pages the stream has; 0 until the info page is read.
    pub saved: u64,
    pub pages: u64,
    /// The next page of the stream that is read for the first time, and the map of the page before it.
    pub page: u64,
    pub map: Page,
    /// How many numbers were listed; once all are, how many pages were handed out.
    pub given: u64,
    /// The page frame of the previous number.
    pub last: Option<u64>,
    /// How many of the listed numbers have a data page.
    pub with_data: u64,
    /// The block of the map of the number page that is read again next.
    pub again: u64,
    /// The number page that was read again.
    pub numbers: Page,
    /// The page frame whose page is handed out next.
    pub frame: u64,
    pub ghost few: { saved < 2 ^ 52 },
    pub ghost within: { given ≤ saved },
    pub ghost counted: { with_data ≤ given },
}

impl Reading {
    ghost use Rattle.std.specs.Prelude.{◌≡◌, ◌≢◌, ℕ, ◌+◌, ◌*◌, ◌/◌, ◌%◌, ◌<◌, ◌≤◌, List, [], ◌∷◌, IfOk, None, Some};
    ghost use Rattle.definitions.specs.SwapHeader.{taken_back};
    ghost use Rattle.boot_resume.specs.Asked.{Asked, AsksOn, HasBegun, MayPlace, newest};
    ghost use Rattle.boot_resume.specs.Calls.{handed_from, listed_from, unless};
    ghost use Rattle.boot_resume.specs.Ends.{IsEnd};
    ghost use Rattle.boot_resume.specs.Memory.{Tests};
    ghost use Rattle.boot_resume.specs.OnDisk.{content_cause, hardware_cause, header_in, map_at, mark_in, stream_page};
    ghost use Rattle.boot_resume.specs.Accepted.{Accepts, AcceptsInfo, AcceptsNumbers, IsKept};
    ghost use Rattle.boot_resume.specs.Standing.{Handing, HasListed, HasNumbers, IsAnswer, Knows, Leads, Listing};
    ghost use Rattle.boot_resume.specs.Standing.{ListsNumbers, Numbered, Placing, WantsNumberMap, WantsNumberPage};
    ghost use Rattle.boot_resume.specs.Standing.{behind, from_number};
    ghost use Rattle.boot_resume.specs.Wanted.{HasMapBefore, IsMap};
    ghost use Rattle.definitions.specs.Disk.{DiskImage, block};
    ghost use Rattle.boot_resume.specs.declared.call.Call.{Call};
    ghost use Rattle.boot_resume.specs.declared.machine.Machine.{Machine};
    ghost use Rattle.boot_resume.specs.declared.stage.Stage.TheVariants.{FirstSync, Header, TakeBack, SettleBack};
    ghost use Rattle.boot_resume.specs.declared.stage.Stage.TheVariants.{ListMap, ListPage, NumberMap, NumberPage};
    ghost use Rattle.boot_resume.specs.declared.stage.Stage.TheVariants.{DataMap, DataPage, Place, Ended};

    /// Returns a reading before the first read.
    pub(crate) fn new() -> Reading {
        Reading {
            mark: Mark {
                last: 0,
                count: 0,
                first: 0,
                flags: 0,
                hw_sig: 0,
            },
            saved: 0,
            pages: 0,
            page: 0,
            map: Page::zero(),
            given: 0,
            last: None,
            with_data: 0,
            again: 0,
            numbers: Page::zero(),
            frame: 0,
        }
    }

    /// Takes the answer to the pending call, and returns the next one.
    pub(crate) fn take(
        &mut self,
        pending: Move,
        machine: &Machine,
        page: &mut Page,
    ) -> Result<Move, Cause>
        ensures leads { (v : DiskImage) → Knows machine.now v self.old pending.stage pending.call →
            IsAnswer v pending.call page.old →
            (IsEnd pending.call → ⊥) →
            Leads machine.now v self.new page.new (behind machine.now v self.old pending.stage) result }
        ensures asks { (made : List Call) → Asked machine.now self.old pending.stage pending.call made →
            (IsEnd pending.call → ⊥) →
            AsksOn machine.now self.new (pending.call ∷ made) result }
    {
        match pending.stage {
            Stage::FirstSync => Ok(Move {
                stage: Stage::Header,
                call: Call::Read {
                    block: machine.header(),
                },
            }),
            Stage::Header => self.take_header(machine, page),
            Stage::TakeBack => Ok(Move {
                stage: Stage::SettleBack,
                call: Call::Sync,
            }),
            Stage::SettleBack => self.open(machine),
            Stage::ListMap => self.take_list_map(machine, page),
            Stage::ListPage => self.take_listed(machine, page),
            Stage::NumberMap => self.take_number_map(machine, page),
            Stage::NumberPage => self.take_number_page(machine, page),
            Stage::DataMap => self.take_data_map(machine, page),
            Stage::DataPage => self.take_data_page(),
            Stage::Place => self.take_placed(machine, page),
            Stage::Ended => Ok(pending),
        }
    }

    /// Takes the header block, and replaces it in the buffer by the block taken back.
    fn take_header(&mut self, machine: &Machine, page: &mut Page) -> Result<Move, Cause>
        ensures leads { (v : DiskImage) → page.old ≡ header_in machine.now v →
            Leads machine.now v self.new page.new (behind machine.now v self.old Header) result }
        ensures moves { IfOk result (λ to. to ≡ record { stage = TakeBack; call = Call.Write machine.now.header }) }
    {
        self.mark = read_mark(page)?;
        *page = take_back(page);
        Ok(Move {
            stage: Stage::TakeBack,
            call: Call::Write {
                block: machine.header(),
            },
        })
    }

    /// Begins with the first map, once the block taken back is on the disk.
    fn open(&mut self, machine: &Machine) -> Result<Move, Cause>
        ensures leads { (v : DiskImage) (page : List ℕ) → self.old.mark ≡ mark_in machine.now v →
            Leads machine.now v self.new page (behind machine.now v self.old SettleBack) result }
        ensures asks { (made : List Call) → HasBegun machine.now made → newest made ≡ None →
            AsksOn machine.now self.new made result }
    {
        check_hardware(machine, &self.mark)?;
        self.page = 0;
        want(
            machine,
            &self.mark,
            0,
            &self.map,
            (Stage::ListMap, Stage::ListPage),
        )
    }

    /// Takes a map, and continues with the page that wanted it.
    fn take_list_map(&mut self, machine: &Machine, page: &Page) -> Result<Move, Cause>
        ensures leads { (v : DiskImage) → Listing machine.now v self.old →
            page.now ≡ block v (map_at machine.now v (self.old.page / MAP_PAGE_ENTRIES)) →
            Leads machine.now v self.new page.now (behind machine.now v self.old ListMap) result }
        ensures asks { (made : List Call) → HasBegun machine.now made → newest made ≡ None →
            AsksOn machine.now self.new made result }
    {
        self.map.copy_from_slice(page.as_bytes());
        let block = page_named(machine, &self.mark, self.page, &self.map)?;
        Ok(Move {
            stage: Stage::ListPage,
            call: Call::Read { block },
        })
    }

    /// Takes the info page or a number page.
    fn take_listed(&mut self, machine: &Machine, page: &Page) -> Result<Move, Cause>
        ensures leads { (v : DiskImage) → Listing machine.now v self.old →
            IsMap machine.now v self.old.map (self.old.page / MAP_PAGE_ENTRIES) →
            page.now ≡ stream_page machine.now v self.old.page →
            Leads machine.now v self.new page.now (behind machine.now v self.old ListPage) result }
        ensures asks { (made : List Call) → HasBegun machine.now made → newest made ≡ None →
            AsksOn machine.now self.new made result }
    {
        self.accept(machine, page)?;
        self.page = following(self.page);
        if self.given == self.saved {
            self.begin_pages(machine)
        } else {
            want(
                machine,
                &self.mark,
                self.page,
                &self.map,
                (Stage::ListMap, Stage::ListPage),
            )
        }
    }

    /// Accepts the info page or a number page, depending on its place.
    fn accept(&mut self, machine: &Machine, page: &Page) -> Result<(), Cause>
        ensures accepts { (v : DiskImage) → Listing machine.now v self.old →
            page.now ≡ stream_page machine.now v self.old.page →
            Accepts machine.now v self.old self.new result }
        ensures kept { IsKept self.old self.new }
    {
        if self.page == 0 {
            self.accept_info(machine, page)
        } else {
            self.accept_numbers(machine, page)
        }
    }

    fn accept_info(&mut self, machine: &Machine, page: &Page) -> Result<(), Cause>
        ensures accepts { (v : DiskImage) → self.old.mark ≡ mark_in machine.now v →
            page.now ≡ stream_page machine.now v 0 →
            AcceptsInfo machine.now v self.new result }
        ensures kept { IsKept self.old self.new }
    {
        let counts = read_info(machine, format_of(&self.mark), page)?;
        self.saved = counts.saved;
        self.pages = counts.pages;
        self.given = 0;
        self.with_data = 0;
        self.last = None;
        Ok(())
    }

    fn accept_numbers(&mut self, machine: &Machine, page: &Page) -> Result<(), Cause>
        ensures accepts { (v : DiskImage) → self.old.mark ≡ mark_in machine.now v →
            ListsNumbers machine.now v self.old →
            page.now ≡ stream_page machine.now v self.old.page → AcceptsNumbers machine.now v self.old self.new result }
        ensures kept { IsKept self.old self.new }
    {
        let count = numbers_in_page(self.saved - self.given);
        let before = Tally {
            last: self.last,
            with_data: self.with_data,
        };
        let tally = list_numbers(machine, format_of(&self.mark), page, count, before)?;
        self.given += count;
        self.last = tally.last;
        self.with_data = tally.with_data;
        if self.given == self.saved {
            check_end(page, self.saved)?;
            check_listed(self.saved, self.pages, self.with_data)?;
        }
        Ok(())
    }

    /// Begins with the first page frame, once all numbers were listed.
    fn begin_pages(&mut self, machine: &Machine) -> Result<Move, Cause>
        ensures leads { (v : DiskImage) (page : List ℕ) → HasListed machine.now v self.old →
            Leads machine.now v self.new page (handed_from machine.now v 0) result }
        ensures asks { (made : List Call) → HasBegun machine.now made → newest made ≡ None →
            AsksOn machine.now self.new made result }
    {
        self.given = 0;
        self.with_data = 0;
        self.last = None;
        self.again = self.mark.first;
        self.want_numbers(machine)
    }

    /// Reads the number page of the next number again, through its map.
    fn want_numbers(&self, machine: &Machine) -> Result<Move, Cause>
        ensures leads { (v : DiskImage) (page : List ℕ) → Handing machine.now v self.now →
            HasMapBefore machine.now v self.now.map self.now.page → self.now.given < self.now.saved →
            self.now.given % WORDS_PER_PAGE ≡ 0 →
            self.now.again ≡ map_at machine.now v ((1 + self.now.given / WORDS_PER_PAGE) / MAP_PAGE_ENTRIES) →
            Leads machine.now v self.now page (handed_from machine.now v self.now.given) result }
        ensures asks { (made : List Call) → HasBegun machine.now made → newest made ≡ self.now.last →
            AsksOn machine.now self.now made result }
    {
        let map = map_of(self.number_page());
        let block = map_named(machine, &self.mark, map, self.again)?;
        Ok(Move {
            stage: Stage::NumberMap,
            call: Call::Read { block },
        })
    }

    /// Returns the page of the stream that holds the next number.
    fn number_page(&self) -> u64
        ensures { result ≡ 1 + self.now.given / WORDS_PER_PAGE }
    {
        1 + self.given / NUMBERS
    }

    fn take_number_map(&mut self, machine: &Machine, page: &Page) -> Result<Move, Cause>
        ensures leads { (v : DiskImage) (c : Call) → WantsNumberMap machine.now v self.old c →
            page.now ≡ block v (map_at machine.now v ((1 + self.old.given / WORDS_PER_PAGE) / MAP_PAGE_ENTRIES)) →
            Leads machine.now v self.new page.now (behind machine.now v self.old NumberMap) result }
        ensures asks { (made : List Call) → HasBegun machine.now made → newest made ≡ self.old.last →
            AsksOn machine.now self.new made result }
    {
        let wanted = self.number_page();
        let block = page_named(machine, &self.mark, wanted, page)?;
        self.again = map_behind(wanted, page, self.again);
        Ok(Move {
            stage: Stage::NumberPage,
            call: Call::Read { block },
        })
    }

    fn take_number_page(&mut self, machine: &Machine, page: &mut Page) -> Result<Move, Cause>
        ensures leads { (v : DiskImage) (c : Call) → WantsNumberPage machine.now v self.old c →
            page.old ≡ stream_page machine.now v (1 + self.old.given / WORDS_PER_PAGE) →
            Leads machine.now v self.new page.new (from_number machine.now v self.old.given) result }
        ensures asks { (made : List Call) → HasBegun machine.now made → newest made ≡ self.old.last →
            AsksOn machine.now self.new made result }
    {
        self.numbers.copy_from_slice(page.as_bytes());
        self.take_number(machine, page)
    }

    /// Continues with the page of the next number.
    fn take_number(&mut self, machine: &Machine, page: &mut Page) -> Result<Move, Cause>
        ensures leads { (v : DiskImage) → Handing machine.now v self.old →
            HasMapBefore machine.now v self.old.map self.old.page → self.old.given < self.old.saved →
            HasNumbers machine.now v self.old →
            Leads machine.now v self.new page.new (from_number machine.now v self.old.given) result }
        ensures asks { (made : List Call) → HasBegun machine.now made → newest made ≡ self.old.last →
            AsksOn machine.now self.new made result }
    {
        let format = format_of(&self.mark);
        let word = self.numbers.word((self.given % NUMBERS) as usize);
        self.frame = frame_of(format, word);
        check_number(machine, self.last, self.frame)?;
        if has_no_data(format, word) {
            *page = Page::zero();
            return Ok(self.place());
        }
        want(
            machine,
            &self.mark,
            self.page,
            &self.map,
            (Stage::DataMap, Stage::DataPage),
        )
    }

    /// Hands out the page in the buffer.
    fn place(&self) -> Move
        ensures { result ≡ record { stage = Place; call = Call.Page self.now.frame } }
    {
        Move {
            stage: Stage::Place,
            call: Call::Page { frame: self.frame },
        }
    }

    fn take_data_map(&mut self, machine: &Machine, page: &Page) -> Result<Move, Cause>
        ensures leads { (v : DiskImage) → Numbered machine.now v self.old →
            page.now ≡ block v (map_at machine.now v (self.old.page / MAP_PAGE_ENTRIES)) →
            Leads machine.now v self.new page.now (behind machine.now v self.old DataMap) result }
        ensures asks { (made : List Call) → HasBegun machine.now made → newest made ≡ self.old.last →
            MayPlace machine.now self.old.frame self.old.last →
            AsksOn machine.now self.new made result }
    {
        self.map.copy_from_slice(page.as_bytes());
        let block = page_named(machine, &self.mark, self.page, &self.map)?;
        Ok(Move {
            stage: Stage::DataPage,
            call: Call::Read { block },
        })
    }

    fn take_data_page(&mut self) -> Result<Move, Cause>
        ensures leads { (m : Machine) (v : DiskImage) (page : List ℕ) → Numbered m v self.old →
            IsMap m v self.old.map (self.old.page / MAP_PAGE_ENTRIES) →
            page ≡ stream_page m v self.old.page → Leads m v self.new page (behind m v self.old DataPage) result }
        ensures asks { (m : Machine) (made : List Call) → HasBegun m made → newest made ≡ self.old.last →
            MayPlace m self.old.frame self.old.last →
            AsksOn m self.new made result }
    {
        self.page = following(self.page);
        Ok(self.place())
    }

    /// Continues after a page that was handed out.
    fn take_placed(&mut self, machine: &Machine, page: &mut Page) -> Result<Move, Cause>
        ensures leads { (v : DiskImage) → Placing machine.now v self.old →
            Leads machine.now v self.new page.new (handed_from machine.now v (self.old.given + 1)) result }
        ensures asks { (made : List Call) → HasBegun machine.now made → newest made ≡ Some self.old.frame →
            AsksOn machine.now self.new made result }
    {
        self.last = Some(self.frame);
        self.given = one_more(self.given, self.saved);
        if self.given == self.saved {
            return Ok(Move {
                stage: Stage::Ended,
                call: Call::Done { pages: self.saved },
            });
        }
        if self.given % NUMBERS == 0 {
            return self.want_numbers(machine);
        }
        self.take_number(machine, page)
    }
}
