//! An image that skips pages of zeros, written as one in the plain format.
ghost use Rattle.std.specs.Prelude.{◌≡◌, ◌≤◌, ℕ, List, [], Option, IfErr, IfOk, OnErr};
ghost use Rattle.page_core.specs.declared.format.Format.TheVariants.{SkipZeros};
ghost use Rattle.definitions.specs.Disk.{HasRisen};
ghost use Rattle.image_pages.specs.Given.{HasGiven};
ghost use Rattle.image_pages.specs.Stands.{Stands};
ghost use Rattle.definitions.specs.Streams.{TakesAll};
ghost use Rattle.image_stream.specs.Plain.{plain_info};
ghost use Rattle.image_stream.specs.Converted.{IsAtLists, IsAtRest, IsFrameFront, IsListFront};
ghost use Rattle.image_stream.specs.Converted.{WritesFrames, WritesLists};
ghost use Rattle.image_stream.specs.Streamed.{IsFront, IsStopped, IsStreamed};

use crate::plain::{NUMBERS, plain_info, plain_numbers};
use crate::streaming::{Stop, Streamed};
use byte_streams::{Sink, put_all};
use definitions::number_page_count;
use image_check::Report;
use image_pages::frames::{Frames, Next, Numbers};
use image_pages::{Pages, read_page};
use page_core::{Failed, Page};
use sector_disk::Disk;

/// Writes an image that skips pages of zeros, of which nothing was read yet, as a stream in the plain format. The
/// number pages are read twice.
pub(crate) fn convert<D: Disk, S: Sink, R: Report>(
    mut pages: Pages,
    disk: &mut D,
    out: &mut S,
    report: &mut R,
) -> Result<Streamed, Stop>
    requires stands { (header : ℕ) × Stands (D.content disk.old) (D.block_count disk.old) header pages [] }
    requires skips { pages.format ≡ SkipZeros }
    ensures streamed { (header : ℕ) → Stands (D.content disk.old) (D.block_count disk.old) header pages [] →
        IfOk result (IsStreamed (D.content disk.old) (D.block_count disk.old) header
        (D.faults disk.old) (D.faults disk.new) (R.told report.old) (R.told report.new)
        (S.taken out.old) (S.taken out.new)) }
    ensures stopped { (header : ℕ) → Stands (D.content disk.old) (D.block_count disk.old) header pages [] →
        IfErr result (IsStopped (D.content disk.old) (D.block_count disk.old) header
        (S.faults out.old) (S.faults out.new) (S.taken out.old) (S.taken out.new)) }
    ensures untold { OnErr result (R.told report.new ≡ R.told report.old) }
    ensures counted { S.faults out.old ≤ S.faults out.new }
    ensures content { D.content disk.new ≡ D.content disk.old }
    ensures faults { D.faults disk.old ≤ D.faults disk.new }
    ensures orders { D.orders disk.new ≡ D.orders disk.old }
    ensures blocks { D.block_count disk.new ≡ D.block_count disk.old }
{
    let mut info = Page::zero();
    if !read_page(&mut pages, disk, report, &mut info) {
        return Ok(Streamed::Refused);
    }
    let Some(counts) = pages.counts() else {
        unreachable!()
    };
    let plain = plain_info(&info, counts.image_pages);
    let ahead = pages.fork()?;
    let numbers = Numbers::of(info, counts, ahead);
    put_all(out, plain.as_bytes())?;
    Ok(write_rest(numbers, pages, disk, out, report)?)
}

/// Writes what comes after the info page.
fn write_rest<D: Disk, S: Sink, R: Report>(
    numbers: Numbers,
    mut pages: Pages,
    disk: &mut D,
    out: &mut S,
    report: &mut R,
) -> Result<Streamed, Failed>
    requires { (header : ℕ) × IsAtRest (D.content disk.old) (D.block_count disk.old) header numbers pages }
    ensures written { (header : ℕ) (first : Option (List ℕ)) →
        IsAtRest (D.content disk.old) (D.block_count disk.old) header numbers pages →
        TakesAll (plain_info numbers.info) first (S.taken out.old) →
        IfOk result (IsStreamed (D.content disk.old) (D.block_count disk.old) header
        (D.faults disk.old) (D.faults disk.new) (R.told report.old) (R.told report.new) first (S.taken out.new)) }
    ensures stopped { (header : ℕ) (first : Option (List ℕ)) →
        IsAtRest (D.content disk.old) (D.block_count disk.old) header numbers pages →
        TakesAll (plain_info numbers.info) first (S.taken out.old) →
        OnErr result (IsFront (D.content disk.old) (D.block_count disk.old) header first (S.taken out.new)) }
    ensures untold { OnErr result (R.told report.new ≡ R.told report.old) }
    ensures cause { OnErr result (HasRisen (S.faults out.old) (S.faults out.new)) }
    ensures counted { S.faults out.old ≤ S.faults out.new }
    ensures content { D.content disk.new ≡ D.content disk.old }
    ensures faults { D.faults disk.old ≤ D.faults disk.new }
    ensures orders { D.orders disk.new ≡ D.orders disk.old }
    ensures blocks { D.block_count disk.new ≡ D.block_count disk.old }
{
    let count = numbers.count();
    let read = write_numbers(&mut pages, disk, out, report, count)?;
    if !read {
        return Ok(Streamed::Refused);
    }
    write_frames(Frames::of(numbers, pages), disk, out, report)
}

/// Writes the number pages of an image with `count` numbers, without their marks, and returns whether all were read.
fn write_numbers<D: Disk, S: Sink, R: Report>(
    pages: &mut Pages,
    disk: &mut D,
    out: &mut S,
    report: &mut R,
    count: u64,
) -> Result<bool, Failed>
    requires { (header : ℕ) × ((info : List ℕ) ×
        IsAtLists (D.content disk.old) (D.block_count disk.old) header pages.old info count) }
    ensures written { (header : ℕ) (info : List ℕ) →
        IsAtLists (D.content disk.old) (D.block_count disk.old) header pages.old info count →
        IfOk result (WritesLists (D.content disk.old) (D.block_count disk.old) header
        (D.faults disk.old) (D.faults disk.new) (R.told report.old) (R.told report.new) info count pages.new
        (S.taken out.old) (S.taken out.new)) }
    ensures stopped { (header : ℕ) (info : List ℕ) →
        IsAtLists (D.content disk.old) (D.block_count disk.old) header pages.old info count →
        OnErr result (IsListFront (D.content disk.old) (D.block_count disk.old) header info count
        (S.taken out.old) (S.taken out.new)) }
    ensures untold { OnErr result (R.told report.new ≡ R.told report.old) }
    ensures cause { OnErr result (HasRisen (S.faults out.old) (S.faults out.new)) }
    ensures counted { S.faults out.old ≤ S.faults out.new }
    ensures format { pages.new.format ≡ pages.old.format }
    ensures content { D.content disk.new ≡ D.content disk.old }
    ensures faults { D.faults disk.old ≤ D.faults disk.new }
    ensures orders { D.orders disk.new ≡ D.orders disk.old }
    ensures blocks { D.block_count disk.new ≡ D.block_count disk.old }
{
    let number_pages = number_page_count(count);
    let mut page = Page::zero();
    for k in 0..number_pages {
        if !read_page(pages, disk, report, &mut page) {
            return Ok(false);
        }
        let plain = plain_numbers(&page, count - NUMBERS * k);
        put_all(out, plain.as_bytes())?;
    }
    Ok(true)
}

/// Writes the pages of the saved page frames.
fn write_frames<D: Disk, S: Sink, R: Report>(
    mut frames: Frames,
    disk: &mut D,
    out: &mut S,
    report: &mut R,
) -> Result<Streamed, Failed>
    requires { (header : ℕ) × HasGiven (D.content disk.old) (D.block_count disk.old) header frames [] }
    ensures written { (header : ℕ) → HasGiven (D.content disk.old) (D.block_count disk.old) header frames [] →
        IfOk result (WritesFrames (D.content disk.old) (D.block_count disk.old) header
        (D.faults disk.old) (D.faults disk.new) (R.told report.old) (R.told report.new) frames.numbers.info
        (S.taken out.old) (S.taken out.new)) }
    ensures stopped { (header : ℕ) → HasGiven (D.content disk.old) (D.block_count disk.old) header frames [] →
        OnErr result (IsFrameFront (D.content disk.old) (D.block_count disk.old) header frames.numbers.info
        (S.taken out.old) (S.taken out.new)) }
    ensures untold { OnErr result (R.told report.new ≡ R.told report.old) }
    ensures cause { OnErr result (HasRisen (S.faults out.old) (S.faults out.new)) }
    ensures counted { S.faults out.old ≤ S.faults out.new }
    ensures content { D.content disk.new ≡ D.content disk.old }
    ensures faults { D.faults disk.old ≤ D.faults disk.new }
    ensures orders { D.orders disk.new ≡ D.orders disk.old }
    ensures blocks { D.block_count disk.new ≡ D.block_count disk.old }
{
    let mut page = Page::zero();
    loop {
        match frames.next(disk, report, &mut page) {
            Next::Frame(_) => put_all(out, page.as_bytes())?,
            Next::End => return Ok(Streamed::Whole),
            Next::Refused => return Ok(Streamed::Refused),
        }
    }
}
