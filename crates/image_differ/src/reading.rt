ghost use Rattle.std.specs.Prelude.{◌≡◌, nat_eq};
ghost use Rattle.std.specs.Cmp.Lexicographic.{pointwise};
ghost use Rattle.image_differ.specs.Readings.{turn_of};

use crate::Side;
use image_check::Report;
use image_pages::frames::{Frames, Next};
use page_core::Page;
use sector_disk::Disk;

/// The position of a reading of an image.
#[derive(Clone, Copy)]
pub(crate) enum Place {
    /// The page frame that was read last was compared.
    Unread,
    /// The page frame with this number is compared next.
    At(u64),
    /// All page frames were compared.
    Ended,
}

/// The page frames of an image, which are compared one after another.
#[derive(Drop)]
pub(crate) struct Reading {
    pub frames: Frames,
    pub place: Place,
    pub page: Page,
}

impl Reading {
    ghost use Rattle.std.specs.Prelude.{ℕ, List};
    ghost use Rattle.image_pages.specs.SavedFrames.{SavedFrame};
    ghost use Rattle.image_differ.specs.Readings.{IsReading, Readies};
    ghost use Rattle.image_differ.specs.Sides.{OnlyReads, side_view};

    /// Continues to the next page frame that wasn't compared, and returns whether nothing was wrong.
    pub fn ready<D: Disk, R: Report>(&mut self, side: &mut Side<D, R>) -> bool
        requires { (given : List SavedFrame) × ((bound : ℕ) ×
            IsReading (side_view D.Disk R.Report side.old) self.old given bound) }
        ensures readies { (given : List SavedFrame) (bound : ℕ) →
            IsReading (side_view D.Disk R.Report side.old) self.old given bound →
            Readies (side_view D.Disk R.Report side.old) (side_view D.Disk R.Report side.new)
            given bound self.old self.new result }
        ensures kept { OnlyReads (side_view D.Disk R.Report side.old) (side_view D.Disk R.Report side.new) }
    {
        let Place::Unread = self.place else {
            return true;
        };
        match self
            .frames
            .next(&mut side.disk, &mut side.report, &mut self.page)
        {
            Next::Frame(number) => self.place = Place::At(number),
            Next::End => self.place = Place::Ended,
            Next::Refused => return false,
        }
        true
    }
}

/// Returns whether two pages hold the same bytes.
pub(crate) fn is_same_page(first: &Page, second: &Page) -> bool
    ensures { result ≡ pointwise nat_eq first.now second.now }
{
    first.as_bytes() == second.as_bytes()
}

/// The page frame that is compared next: the lower of two.
#[derive(Clone, Copy)]
pub(crate) enum Turn {
    First(u64),
    Second(u64),
    Both(u64),
    /// No page frame is left in either image.
    End,
}

/// Returns which of two readings is next.
pub(crate) fn turn_of(first: Place, second: Place) -> Turn
    ensures { result ≡ turn_of first second }
{
    let Place::At(p) = first else {
        return match second {
            Place::At(q) => Turn::Second(q),
            Place::Ended | Place::Unread => Turn::End,
        };
    };
    let Place::At(q) = second else {
        return Turn::First(p);
    };
    if p < q {
        Turn::First(p)
    } else if q < p {
        Turn::Second(q)
    } else {
        Turn::Both(p)
    }
}
