ghost use Rattle.std.specs.Prelude.{◌≡◌, ℕ, ◌+◌, ◌-◌, ◌*◌, ◌/◌, ◌<◌, ◌≤◌, ◌↔◌, ◌++◌, ◌∷◌, [], List, Some, None, Err};
ghost use Rattle.std.specs.Prelude.{IsOk, IfOk, nat_lt, if◌then◌else◌};
ghost use Rattle.stream_in.specs.Grammar.{place, first_fault, counts_fault, fault_at, kind_of_word, kind_of_number};
ghost use Rattle.stream_in.specs.Grammar.{kind_of_end};
ghost use Rattle.stream_in.specs.Taken.{AreBounded, HasRead, HasTaken, Completes};
ghost use Rattle.stream_in.specs.declared.checking.fault.StreamFault.{StreamFault};

use crate::checking::{Kind, StreamFault};
use byteorder::{ByteOrder, LittleEndian};
use definitions::{WORDS_PER_PAGE, number_page_count};

/// The bytes of a page.
pub const PAGE: u64 = 4096;

/// The bytes of a word.
const WORD: u64 = 8;

/// The bound of frame numbers, which are all below it.
const FRAMES: u64 = 65536;

/// The frame numbers that fill a page.
const PAGE_NUMBERS: u64 = WORDS_PER_PAGE as u64;

/// The word after the last number if that doesn't fill its page (BM_END_OF_MAP).
const END: u64 = u64::MAX;

/// The places of the two counts in the info page (struct swsusp_info).
const IMAGE_PAGES: u64 = 416;

const PAGES: u64 = 424;

/// The place of the info page's last word.
const LAST_OF_INFO: u64 = PAGE - WORD;

/// What is kept of the bytes taken so far.
#[derive(Clone, Copy)]
pub struct Taking {
    /// The number of bytes taken.
    pub taken: u64,
    /// The bytes so far of the word that has begun.
    pub word: [u8; 8],
    /// The two counts, once they are read.
    pub image_pages: u64,
    pub pages: u64,
    /// The ends of the tested words and of the stream: the least and the most possible until the info page is whole.
    pub numbers_end: u64,
    pub end: u64,
    /// The least number that may come next.
    pub least: u64,
}

impl Taking {
    /// Makes a state in which no byte is taken.
    pub fn begin() -> Taking
        ensures taken { HasTaken [] result }
        ensures bounded { AreBounded result }
    {
        Taking {
            taken: 0,
            word: [0; 8],
            image_pages: 0,
            pages: 0,
            numbers_end: PAGE,
            end: PAGE * (FRAMES + FRAMES / PAGE_NUMBERS + 1),
            least: 0,
        }
    }

    /// Takes the bytes of a piece.
    pub fn with_piece(self, piece: &[u8]) -> Result<Taking, StreamFault>
        requires { AreBounded self }
        ensures fault { (bs : List ℕ) → HasTaken bs self → (fault : StreamFault) →
            (result ≡ Err fault) ↔ (first_fault (bs ++ piece.now) ≡ Some fault) }
        ensures taken { (bs : List ℕ) → HasTaken bs self → IfOk result (λ next. HasTaken (bs ++ piece.now) next) }
        ensures bounded { IfOk result (λ next. AreBounded next) }
    {
        let mut next = self;
        let mut i = 0;
        while i < piece.len() && next.taken < next.numbers_end {
            next = next.with_byte(piece[i])?;
            i += 1;
        }
        if i == piece.len() {
            return Ok(next);
        }
        next.with_rest(&piece[i..])
    }

    /// Takes a byte of the info page or of the words that are tested.
    fn with_byte(self, b: u8) -> Result<Taking, StreamFault>
        requires bounded { AreBounded self }
        requires tested { self.taken < self.numbers_end }
        ensures fault { (bs : List ℕ) → HasTaken bs self → (fault : StreamFault) →
            (result ≡ Err fault) ↔ (first_fault (bs ++ b ∷ []) ≡ Some fault) }
        ensures taken { (bs : List ℕ) → HasTaken bs self → IfOk result (λ next. HasTaken (bs ++ b ∷ []) next) }
        ensures bounded { IfOk result (λ next. AreBounded next) }
    {
        let k = (self.taken % WORD) as usize;
        let mut next = self;
        next.word[k] = b;
        next.taken += 1;
        if k < 7 {
            return Ok(next);
        }
        next.with_word(LittleEndian::read_u64(&next.word))
    }

    /// Reads the word that is now whole.
    fn with_word(self, v: u64) -> Result<Taking, StreamFault>
        requires bounded { AreBounded self }
        requires word { 8 ≤ self.taken }
        requires tested { self.taken ≤ self.numbers_end }
        ensures fault { (bs : List ℕ) (b : ℕ) → Completes bs b v self → (fault : StreamFault) →
            (result ≡ Err fault) ↔ (first_fault (bs ++ b ∷ []) ≡ Some fault) }
        ensures read { (bs : List ℕ) (b : ℕ) → Completes bs b v self →
            IfOk result (λ next. HasRead (bs ++ b ∷ []) next) }
        ensures taken { IfOk result (λ next. next.taken ≡ self.taken) }
        ensures bounded { IfOk result (λ next. AreBounded next) }
    {
        let at = self.taken - WORD;
        if at >= PAGE {
            return self.with_number(at, v);
        }
        if at == LAST_OF_INFO {
            return self.with_counts();
        }
        if at == IMAGE_PAGES {
            return Ok(Taking {
                image_pages: v,
                ..self
            });
        }
        if at == PAGES {
            return Ok(Taking { pages: v, ..self });
        }
        Ok(self)
    }

    /// Tests the counts of the info page, which is now whole.
    fn with_counts(self) -> Result<Taking, StreamFault>
        requires bounded { AreBounded self }
        requires info { self.taken ≡ 4096 }
        ensures fault { (fault : StreamFault) →
            (result ≡ Err fault) ↔ (counts_fault self.image_pages self.pages ≡ Some fault) }
        ensures next { IfOk result (λ next. next ≡ record self {
          numbers_end = place (self.image_pages + 1);
          end = 4096 * self.pages;
        }) }
        ensures bounded { IfOk result (λ next. AreBounded next) }
    {
        let n = self.image_pages;
        let counts = StreamFault {
            kind: Kind::Counts,
            at: IMAGE_PAGES,
        };
        if n == 0 || n > FRAMES {
            return Err(counts);
        }
        if self.pages != n + number_page_count(n) + 1 {
            return Err(counts);
        }
        Ok(Taking {
            numbers_end: PAGE + WORD * (n + 1),
            end: PAGE * self.pages,
            ..self
        })
    }

    /// Tests the word at this place after the info page.
    fn with_number(self, at: u64, v: u64) -> Result<Taking, StreamFault>
        requires bounded { AreBounded self }
        requires behind { 4096 ≤ at }
        ensures fault { (fault : StreamFault) →
            (result ≡ Err fault) ↔ (fault_at at (kind_of_word self.image_pages ((at - 4096) / 8) self.least v) ≡ Some
            fault) }
        ensures next { IfOk result (λ next. next ≡ record self {
          least = (if nat_lt ((at - 4096) / 8) self.image_pages
              then v + 1 else self.least);
        }) }
        ensures bounded { IfOk result (λ next. AreBounded next) }
    {
        let j = (at - PAGE) / WORD;
        if j >= self.image_pages {
            check_end(self.image_pages, at, v)?;
            return Ok(self);
        }
        check_number(self.least, at, v)?;
        Ok(Taking {
            least: v + 1,
            ..self
        })
    }

    /// Takes bytes after the tested words. Only their number matters.
    fn with_rest(self, rest: &[u8]) -> Result<Taking, StreamFault>
        requires bounded { AreBounded self }
        requires behind { self.numbers_end ≤ self.taken }
        ensures fault { (bs : List ℕ) → HasTaken bs self → (fault : StreamFault) →
            (result ≡ Err fault) ↔ (first_fault (bs ++ rest.now) ≡ Some fault) }
        ensures taken { (bs : List ℕ) → HasTaken bs self → IfOk result (λ next. HasTaken (bs ++ rest.now) next) }
        ensures bounded { IfOk result (λ next. AreBounded next) }
    {
        let count = rest.len() as u64;
        if count > self.end - self.taken {
            return Err(StreamFault {
                kind: Kind::Extra,
                at: self.end,
            });
        }
        Ok(Taking {
            taken: self.taken + count,
            ..self
        })
    }
}

/// Tests a frame number, which must be at least `least`.
fn check_number(least: u64, at: u64, v: u64) -> Result<(), StreamFault>
    ensures fault { (fault : StreamFault) → (result ≡ Err fault) ↔ (fault_at at (kind_of_number least v) ≡ Some fault) }
    ensures small { IsOk result → v < 65536 }
{
    if v >= FRAMES {
        return Err(StreamFault {
            kind: Kind::Pfn,
            at,
        });
    }
    if v < least {
        return Err(StreamFault {
            kind: Kind::Order,
            at,
        });
    }
    Ok(())
}

/// Tests the word after the last of `n` numbers.
fn check_end(n: u64, at: u64, v: u64) -> Result<(), StreamFault>
    ensures { (fault : StreamFault) → (result ≡ Err fault) ↔ (fault_at at (kind_of_end n v) ≡ Some fault) }
{
    if n % PAGE_NUMBERS == 0 || v == END {
        return Ok(());
    }
    Err(StreamFault {
        kind: Kind::End,
        at,
    })
}
