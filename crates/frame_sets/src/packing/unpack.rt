ghost use Rattle.std.specs.Prelude.{◌≡◌, ℕ, ◌+◌, ◌-◌, ◌*◌, ◌^◌, ◌<◌, ◌≤◌, ◌↔◌, ◌++◌, Some, None, Ok, Err, IsOk, IsTrue};
ghost use Rattle.std.specs.Prelude.{OnOk, OnErr, IfOk, IsSome, IfSome, Option};
ghost use Rattle.definitions.specs.Bytes.{word};
ghost use Rattle.frame_sets.specs.Unpacked.{Unpacked};

use crate::{Bitmap, Zones};
use definitions::WORDS_PER_PAGE;
use page_core::{Format, Page};
use std::marker::Model;
use thiserror::Error;

/// The word after the last number if its page isn't full (BM_END_OF_MAP).
const END: u64 = u64::MAX;

/// The bit that marks a number whose page has no data page.
const ZERO_BIT: u64 = 1 << 63;

/// What is wrong with a number page: the first word at fault.
#[derive(Clone, Copy, Debug, PartialEq, Eq, Error)]
pub enum PfnFault {
    /// The number isn't a valid page frame number.
    #[error("bad pfn {pfn}")]
    BadPfn { pfn: u64 },
    /// Number `b` isn't above number `a` before it.
    #[error("pfn order {a} {b}")]
    PfnOrder { a: u64, b: u64 },
    /// The last page isn't full, and the word after the last number isn't 2^64-1.
    #[error("pfn end {found}")]
    PfnEnd { found: u64 },
}

/// A reader of the number pages of an image, which come one after another. A contract sees how many numbers there are,
/// the format, how many were read, and the last of those.
#[derive(Drop)]
pub struct Unpack {
    n: u32,
    format: Format,
    read: u32,
    last: Option<u32>,
}

impl Model for Unpack {
    ghost Value = { Unpacked };

    ghost view = { λ a. record { n = a.n; format = a.format; read = a.read; last = a.last } };
}

impl Unpack {
    ghost use Rattle.frame_sets.specs.Unpacked.{Unpacked, IsUpTo};
    ghost use Rattle.frame_sets.specs.Numbers.{number_by, is_marked_by, wanted, page_fault, numbers_in, marked_in};
    ghost use Rattle.frame_sets.specs.Numbers.{after_page, first_below, fault_in, before_in, end_fault};
    ghost use Rattle.frame_sets.specs.declared.packing.unpack.PfnFault.{PfnFault};

    /// Makes a reader of the number pages of `n` numbers that has read none.
    pub fn begin(n: u32, format: Format) -> Unpack
        ensures { result ≡ record { n = n; format = format; read = 0; last = None } }
    {
        Unpack {
            n,
            format,
            read: 0,
            last: None,
        }
    }

    /// Reads the next number page. Its numbers go into `origs`, and those of pages without a data page also into
    /// `zeros`. A page that is refused changes nothing.
    pub fn feed(
        &mut self,
        page: &Page,
        zones: &Zones,
        origs: &mut Bitmap,
        zeros: &mut Bitmap,
    ) -> Result<(), PfnFault>
        requires wanted { self.old.read < self.old.n }
        requires zones { (origs.old.zones ≡ zones.now) × (zeros.old.zones ≡ zones.now) }
        requires listed { IsUpTo self.old.last origs.old.members }
        requires marked { IsUpTo self.old.last zeros.old.members }

        ensures ok { IsOk result ↔ (page_fault zones.now self.old page.now ≡ None) }
        ensures fault { (fault : PfnFault) →
            (result ≡ Err fault) ↔ (page_fault zones.now self.old page.now ≡ Some fault) }

        ensures read { OnOk result (self.new ≡ after_page self.old page.now) }
        ensures listed { OnOk result (origs.new ≡ record origs.old {
          members = origs.old.members
              ++ numbers_in self.old page.now (wanted self.old);
        }) }
        ensures marked { OnOk result (zeros.new ≡ record zeros.old {
          members = zeros.old.members
              ++ marked_in self.old page.now (wanted self.old);
        }) }

        ensures same { OnErr result (self.new ≡ self.old) }
        ensures same_origs { OnErr result (origs.new ≡ origs.old) }
        ensures same_zeros { OnErr result (zeros.new ≡ zeros.old) }
    {
        let count = (self.n - self.read).min(WORDS_PER_PAGE);
        let last = self.check(page, zones, count)?;
        self.check_end(page)?;
        self.list(page, count, origs, zeros);
        self.read += count;
        self.last = last;
        Ok(())
    }

    /// Returns the number that a word holds.
    fn number(&self, word: u64) -> u64
        ensures { result ≡ number_by self.now.format word }
    {
        match self.format {
            Format::Plain => word,
            Format::SkipZeros => word % ZERO_BIT,
        }
    }

    /// Returns whether the page of a word's number has no data page.
    fn is_marked(&self, word: u64) -> bool
        ensures { result ≡ is_marked_by self.now.format word }
    {
        match self.format {
            Format::Plain => false,
            Format::SkipZeros => ZERO_BIT <= word,
        }
    }

    /// Tests the first `count` numbers of a page, and returns the last one.
    fn check(&self, page: &Page, zones: &Zones, count: u32) -> Result<Option<u32>, PfnFault>
        requires { count ≤ WORDS_PER_PAGE }
        ensures ok { IsOk result ↔ (first_below (fault_in zones.now self.now page.now) count ≡ None) }
        ensures fault { (fault : PfnFault) →
            (result ≡ Err fault) ↔ (first_below (fault_in zones.now self.now page.now) count ≡ Some fault) }
        ensures last { IfOk result (λ last. last ≡ before_in self.now page.now count) }
    {
        let mut last = self.last;
        for j in 0..count {
            let number = self.number(page.word(j as usize));
            last = Some(accept(zones, last, number)?);
        }
        Ok(last)
    }

    /// Tests the word after the last number.
    fn check_end(&self, page: &Page) -> Result<(), PfnFault>
        ensures ok { IsOk result ↔ (end_fault self.now page.now ≡ None) }
        ensures fault { (fault : PfnFault) → (result ≡ Err fault) ↔ (end_fault self.now page.now ≡ Some fault) }
    {
        let left = self.n.saturating_sub(self.read);
        if left >= WORDS_PER_PAGE {
            return Ok(());
        }
        let found = page.word(left as usize);
        if found == END {
            return Ok(());
        }
        Err(PfnFault::PfnEnd { found })
    }

    /// Puts the first `count` numbers of a page into the sets.
    fn list(&self, page: &Page, count: u32, origs: &mut Bitmap, zeros: &mut Bitmap)
        requires few { count ≤ WORDS_PER_PAGE }
        requires sound { first_below (fault_in origs.old.zones self.now page.now) count ≡ None }
        requires same_zones { zeros.old.zones ≡ origs.old.zones }
        requires listed { IsUpTo self.now.last origs.old.members }
        requires marked { IsUpTo self.now.last zeros.old.members }
        ensures listed { origs.new ≡ record origs.old {
          members = origs.old.members
              ++ numbers_in self.now page.now count;
        } }
        ensures marked { zeros.new ≡ record zeros.old {
          members = zeros.old.members
              ++ marked_in self.now page.now count;
        } }
    {
        origs.is_frame_set();
        for j in 0..count {
            let word = page.word(j as usize);
            let p = self.number(word) as u32;
            origs.set(p);
            if self.is_marked(word) {
                zeros.set(p);
            }
        }
    }
}

ghost use Rattle.frame_sets.specs.Numbers.{number_fault};
ghost use Rattle.std.specs.Prelude.{◌==◌, true};
ghost use Rattle.std.specs.List.{list_any, Contains};
ghost use Rattle.definitions.specs.Zones.{numbers};
ghost use Rattle.frame_sets.specs.declared.packing.unpack.PfnFault.{PfnFault};

/// Returns the page frame of a number that is valid and above the one before.
fn accept(zones: &Zones, before: Option<u32>, number: u64) -> Result<u32, PfnFault>
    ensures ok { IsOk result ↔ (number_fault zones.now before number ≡ None) }
    ensures fault { (fault : PfnFault) → (result ≡ Err fault) ↔ (number_fault zones.now before number ≡ Some fault) }
    ensures same { IfOk result (λ p. p ≡ number) }
{
    let p = valid_frame(zones, number).ok_or(PfnFault::BadPfn { pfn: number })?;
    match before {
        Some(a) if p <= a => Err(PfnFault::PfnOrder {
            a: u64::from(a),
            b: number,
        }),
        _ => Ok(p),
    }
}

/// Returns the page frame with this number, if it is valid.
fn valid_frame(zones: &Zones, number: u64) -> Option<u32>
    ensures valid { IsSome result ↔ (list_any (λ q. q == number) (numbers zones.now) ≡ true) }
    ensures same { IfSome result (λ p. p ≡ number) }
{
    if number >= u64::from(zones.top()) {
        return None;
    }
    let p = number as u32;
    if zones.valid(p) { Some(p) } else { None }
}
