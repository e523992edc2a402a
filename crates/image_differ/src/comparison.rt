ghost use Rattle.std.specs.Prelude.{◌≡◌, ◌≤◌, ◌++◌, IfNone};
ghost use Rattle.image_differ.specs.Headings.{heading_differences, list_of};

use crate::begun::{Begun, begin};
use crate::heading::{PARTS, heading_difference};
use crate::reading::{Place, Reading, Turn, is_same_page, turn_of};
use crate::{Difference, Heading, Side, Which};
use image_check::Report;
use page_core::NoMemory;
use sector_disk::Disk;
use std::alloc::Global;

/// A comparison of two images in the plain format, whose areas may differ. It takes memory of two bits for each block
/// of both disks.
#[derive(Drop)]
pub struct Comparison {
    one: Heading,
    two: Heading,
    /// How many parts of the headings were compared.
    parts: u32,
    first: Reading,
    second: Reading,
}

/// The result of opening two images.
#[derive(Drop)]
pub enum Opened {
    /// The header block, if the disk has it, isn't marked.
    NoImage(Which),
    /// The image has a fault, which was reported.
    Refused(Which),
    Open(Comparison),
}

/// The next result.
#[derive(Clone, Copy)]
pub enum Next {
    Difference(Difference),
    /// All differences were reported, and neither image has a finding.
    End,
    /// The first named block with findings was reached in this image; they were reported.
    Refused(Which),
}

impl Comparison {
    ghost use Rattle.std.specs.Prelude.{◌≡◌, ◌≤◌, ◌++◌, List, IfOk, OnErr};
    ghost use Rattle.image_differ.specs.Compares.{AreUntold, HasCompared, Opens, Says, Steps};
    ghost use Rattle.image_differ.specs.Sides.{OnlyReads, side_view};
    ghost use Rattle.image_differ.specs.declared.difference.Difference.{Difference};

    /// Opens the images of two areas.
    pub fn open<D: Disk, E: Disk, R: Report, Q: Report>(
        alloc: Global,
        first: &mut Side<D, R>,
        second: &mut Side<E, Q>,
    ) -> Result<Opened, NoMemory>
        ensures opened { IfOk result (Opens
            (side_view D.Disk R.Report first.old) (side_view D.Disk R.Report first.new)
            (side_view E.Disk Q.Report second.old) (side_view E.Disk Q.Report second.new)) }
        ensures untold { OnErr result (AreUntold
            (side_view D.Disk R.Report first.old) (side_view D.Disk R.Report first.new)
            (side_view E.Disk Q.Report second.old) (side_view E.Disk Q.Report second.new)) }
        ensures first { OnlyReads (side_view D.Disk R.Report first.old) (side_view D.Disk R.Report first.new) }
        ensures second { OnlyReads (side_view E.Disk Q.Report second.old) (side_view E.Disk Q.Report second.new) }
    {
        let (one, first) = match begin(alloc, first)? {
            Begun::NoImage => return Ok(Opened::NoImage(Which::First)),
            Begun::Refused => return Ok(Opened::Refused(Which::First)),
            Begun::Open(heading, reading) => (heading, reading),
        };
        match begin(alloc, second)? {
            Begun::NoImage => Ok(Opened::NoImage(Which::Second)),
            Begun::Refused => Ok(Opened::Refused(Which::Second)),
            Begun::Open(two, second) => Ok(Opened::Open(Comparison {
                one,
                two,
                parts: 0,
                first,
                second,
            })),
        }
    }

    /// Returns the next difference. After an end or a refusal it isn't called again. The differences that were returned
    /// are the first ones, in order; an end says that they are all.
    pub fn next<D: Disk, E: Disk, R: Report, Q: Report>(
        &mut self,
        first: &mut Side<D, R>,
        second: &mut Side<E, Q>,
    ) -> Next
        requires { (told : List Difference) ×
            HasCompared (side_view D.Disk R.Report first.old) (side_view E.Disk Q.Report second.old) self.old told }
        ensures says { (told : List Difference) →
            HasCompared (side_view D.Disk R.Report first.old) (side_view E.Disk Q.Report second.old) self.old told →
            Says (side_view D.Disk R.Report first.old) (side_view D.Disk R.Report first.new)
            (side_view E.Disk Q.Report second.old) (side_view E.Disk Q.Report second.new) told self.new result }
        ensures first { OnlyReads (side_view D.Disk R.Report first.old) (side_view D.Disk R.Report first.new) }
        ensures second { OnlyReads (side_view E.Disk Q.Report second.old) (side_view E.Disk Q.Report second.new) }
    {
        if let Some(difference) = next_part(&self.one, &self.two, &mut self.parts) {
            return Next::Difference(difference);
        }
        loop {
            if let Some(next) = self.step(first, second) {
                return next;
            }
        }
    }

    /// Compares the next page frame, once all parts of the headings were compared. Returns nothing if the pages are the
    /// same.
    fn step<D: Disk, E: Disk, R: Report, Q: Report>(
        &mut self,
        first: &mut Side<D, R>,
        second: &mut Side<E, Q>,
    ) -> Option<Next>
        requires compared { (told : List Difference) ×
            HasCompared (side_view D.Disk R.Report first.old) (side_view E.Disk Q.Report second.old) self.old told }
        requires parts { self.old.parts ≡ 10 }
        ensures steps { (told : List Difference) →
            HasCompared (side_view D.Disk R.Report first.old) (side_view E.Disk Q.Report second.old) self.old told →
            Steps (side_view D.Disk R.Report first.old) (side_view D.Disk R.Report first.new)
            (side_view E.Disk Q.Report second.old) (side_view E.Disk Q.Report second.new)
            told self.old self.new result }
        ensures parts { self.new.parts ≡ 10 }
        ensures first { OnlyReads (side_view D.Disk R.Report first.old) (side_view D.Disk R.Report first.new) }
        ensures second { OnlyReads (side_view E.Disk Q.Report second.old) (side_view E.Disk Q.Report second.new) }
    {
        if !self.first.ready(first) {
            return Some(Next::Refused(Which::First));
        }
        if !self.second.ready(second) {
            return Some(Next::Refused(Which::Second));
        }
        match turn_of(self.first.place, self.second.place) {
            Turn::First(p) => {
                self.first.place = Place::Unread;
                Some(Next::Difference(Difference::FirstAlone(p)))
            }
            Turn::Second(p) => {
                self.second.place = Place::Unread;
                Some(Next::Difference(Difference::SecondAlone(p)))
            }
            Turn::Both(p) => {
                self.first.place = Place::Unread;
                self.second.place = Place::Unread;
                if is_same_page(&self.first.page, &self.second.page) {
                    None
                } else {
                    Some(Next::Difference(Difference::Page(p)))
                }
            }
            Turn::End => Some(Next::End),
        }
    }
}

/// Returns the next difference of two headings, of which the first `parts` parts were compared.
fn next_part(one: &Heading, two: &Heading, parts: &mut u32) -> Option<Difference>
    requires { parts.old ≤ 10 }
    ensures difference { heading_differences one.now two.now parts.new
        ≡ heading_differences one.now two.now parts.old ++ list_of result }
    ensures all { IfNone result (parts.new ≡ 10) }
    ensures some { parts.new ≤ 10 }
    ensures on { parts.old ≤ parts.new }
    ensures begun { parts.old ≡ 10 → result ≡ None }
{
    while *parts < PARTS {
        let part = *parts;
        *parts += 1;
        if let Some(difference) = heading_difference(one, two, part) {
            return Some(difference);
        }
    }
    None
}
