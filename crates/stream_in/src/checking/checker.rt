ghost use Rattle.std.specs.Prelude.{◌≡◌, ℕ, ◌+◌, ◌<◌, ◌≤◌, ◌↔◌, ◌++◌, [], List, Some, None, Err, IsOk, IfOk, OnOk};
ghost use Rattle.std.specs.Prelude.{OnErr, length, nat_lt, if◌then◌else◌};

use crate::checking::taking::{PAGE, Taking};
use crate::checking::{Kind, StreamFault};
use std::marker::Model;

/// A stream that is tested as it comes. A contract sees what is kept of the bytes taken so far, and speaks of the bytes
/// by `HasTaken`.
#[derive(Drop)]
pub struct Checker {
    taking: Taking,
}

impl Model for Checker {
    ghost use Rattle.stream_in.specs.declared.checking.taking.Taking.{Taking};
    ghost use Rattle.stream_in.specs.Taken.{AreBounded};

    ghost Value = { Taking };

    ghost view = { λ c. c.taking };

    ghost invariant = { λ c. AreBounded c.taking };
}

impl Checker {
    ghost use Rattle.stream_in.specs.Taken.{HasTaken};
    ghost use Rattle.stream_in.specs.Grammar.{first_fault, short_fault, image_pages, all_pages, are_counts};
    ghost use Rattle.stream_in.specs.declared.checking.fault.StreamFault.{StreamFault};

    /// Makes a checker that has taken no byte.
    pub fn begin() -> Checker
        ensures { HasTaken [] result }
    {
        Checker {
            taking: Taking::begin(),
        }
    }

    /// Returns how many bytes were taken.
    pub fn taken(&self) -> u64
        ensures { (bs : List ℕ) → HasTaken bs self.now → result ≡ length bs }
    {
        self.taking.taken
    }

    /// Returns the info page's `image_pages` and `pages`, once that page is whole.
    pub fn counts(&self) -> Option<(u32, u32)>
        ensures { (bs : List ℕ) → HasTaken bs self.now →
            result ≡ (if nat_lt (length bs) 4096 then None else Some (image_pages bs, all_pages bs)) }
    {
        if self.taking.numbers_end == PAGE {
            return None;
        }
        Some((self.taking.image_pages as u32, self.taking.pages as u32))
    }

    /// Takes the next piece of the stream, of any length, and refuses it with the first fault of all bytes so far. An
    /// `Err` leaves the piece untaken.
    pub fn take(&mut self, piece: &[u8]) -> Result<(), StreamFault>
        ensures ok { (bs : List ℕ) → HasTaken bs self.old → IsOk result ↔ (first_fault (bs ++ piece.now) ≡ None) }
        ensures fault { (bs : List ℕ) → HasTaken bs self.old → (fault : StreamFault) →
            (result ≡ Err fault) ↔ (first_fault (bs ++ piece.now) ≡ Some fault) }
        ensures taken { (bs : List ℕ) → HasTaken bs self.old → OnOk result (HasTaken (bs ++ piece.now) self.new) }
        ensures same { OnErr result (self.new ≡ self.old) }
    {
        self.taking = self.taking.with_piece(piece)?;
        Ok(())
    }

    /// Returns how many pages were saved, if the stream ends here. Refuses if the last page isn't whole.
    pub fn finish(&self) -> Result<u32, StreamFault>
        ensures ok { (bs : List ℕ) → HasTaken bs self.now → IsOk result ↔ (short_fault bs ≡ None) }
        ensures fault { (bs : List ℕ) → HasTaken bs self.now → (fault : StreamFault) →
            (result ≡ Err fault) ↔ (short_fault bs ≡ Some fault) }
        ensures count { (bs : List ℕ) → HasTaken bs self.now → IfOk result (λ n. n ≡ image_pages bs) }
    {
        let taken = self.taking.taken;
        if self.taking.numbers_end == PAGE || taken < self.taking.end {
            return Err(StreamFault {
                kind: Kind::Short,
                at: taken,
            });
        }
        Ok(self.taking.image_pages as u32)
    }
}
