//! The pages of page frame numbers.
ghost use Rattle.std.specs.Prelude.{◌≡◌, ℕ, ◌+◌, ◌*◌, ◌^◌, ◌<◌, ◌≤◌, IfOk, Some, min, suc, if◌then◌else◌};
ghost use Rattle.definitions.specs.Disk.{DiskImage};
ghost use Rattle.plain_machine.specs.Trace.{number_by, is_marked_by};
ghost use Rattle.boot_resume.specs.Listed.{Lists};
ghost use Rattle.boot_resume.specs.Memory.{Tests};
ghost use Rattle.boot_resume.specs.OnDisk.{data_before, format_by, mark_in, end_fault, listed_fault, number_before};
ghost use Rattle.boot_resume.specs.OnDisk.{number_fault, stream_page};

use crate::cause::Cause;
use crate::machine::Machine;
use definitions::{WORDS_PER_PAGE, number_page_count};
use page_core::{Format, Page};

/// How many numbers fill a page.
pub(crate) const NUMBERS: u64 = WORDS_PER_PAGE as u64;

/// The bit of a number whose page has no data page.
const ZERO_BIT: u64 = 1 << 63;

/// What follows the last number if its page isn't full (BM_END_OF_MAP).
const END: u64 = u64::MAX;

/// Returns how many numbers the next page has if `left` numbers are left.
pub(crate) fn numbers_in_page(left: u64) -> u64
    ensures { result ≡ min WORDS_PER_PAGE left }
{
    if left < NUMBERS { left } else { NUMBERS }
}

/// Returns one more than `given`, but no more than `saved`.
pub(crate) fn one_more(given: u64, saved: u64) -> u64
    ensures next { given < saved → result ≡ given + 1 }
    ensures within { given ≤ saved → result ≤ saved }
    ensures rises { given ≤ result }
{
    if given < saved { given + 1 } else { given }
}

/// Returns the page frame of a number's word.
pub(crate) fn frame_of(format: Format, word: u64) -> u64
    ensures { result ≡ number_by format word }
{
    match format {
        Format::Plain => word,
        Format::SkipZeros => word % ZERO_BIT,
    }
}

/// Returns whether the page of a number is zeros and has no data page.
pub(crate) fn has_no_data(format: Format, word: u64) -> bool
    ensures { result ≡ is_marked_by format word }
{
    match format {
        Format::Plain => false,
        Format::SkipZeros => word >= ZERO_BIT,
    }
}

/// Checks that a page frame is memory and above the one before it.
pub(crate) fn check_number(machine: &Machine, last: Option<u64>, frame: u64) -> Result<(), Cause>
    ensures { Tests (number_fault machine.now last frame) result }
{
    if !machine.is_memory(frame) {
        return Err(Cause::BadPfn { pfn: frame });
    }
    match last {
        Some(before) if frame <= before => Err(Cause::PfnOrder {
            a: before,
            b: frame,
        }),
        _ => Ok(()),
    }
}

/// What was listed so far: the last page frame, and how many numbers have a data page.
#[derive(Clone, Copy)]
pub(crate) struct Tally {
    pub last: Option<u64>,
    pub with_data: u64,
}

/// Lists the first `count` numbers of a page, after those of a tally.
pub(crate) fn list_numbers(
    machine: &Machine,
    format: Format,
    page: &Page,
    count: u64,
    before: Tally,
) -> Result<Tally, Cause>
    requires count { count ≤ WORDS_PER_PAGE }
    requires room { before.with_data + WORDS_PER_PAGE < 2 ^ 64 }
    ensures lists { (v : DiskImage) (q : ℕ) → format ≡ format_by (mark_in machine.now v).flags →
        page.now ≡ stream_page machine.now v (1 + q) → before.last ≡ number_before machine.now v (WORDS_PER_PAGE * q) →
        before.with_data ≡ data_before machine.now v (WORDS_PER_PAGE * q) → Lists machine.now v q count result }
    ensures data { IfOk result (λ tally. tally.with_data ≤ before.with_data + count) }
{
    let mut tally = before;
    for i in 0..count {
        tally = list_number(machine, format, page.word(i as usize), tally)?;
    }
    Ok(tally)
}

/// Lists one more number.
fn list_number(machine: &Machine, format: Format, word: u64, before: Tally) -> Result<Tally, Cause>
    requires { before.with_data + 1 < 2 ^ 64 }
    ensures tests { Tests (number_fault machine.now before.last (number_by format word)) result }
    ensures last { IfOk result (λ tally. tally.last ≡ Some (number_by format word)) }
    ensures tallied { IfOk result (λ tally. tally.with_data ≡ (if is_marked_by format word then before.with_data
        else suc before.with_data)) }
{
    let frame = frame_of(format, word);
    check_number(machine, before.last, frame)?;
    let with_data = if has_no_data(format, word) {
        before.with_data
    } else {
        before.with_data + 1
    };
    Ok(Tally {
        last: Some(frame),
        with_data,
    })
}

/// Checks that the end value follows the last of `saved` numbers, if that doesn't fill its page.
pub(crate) fn check_end(page: &Page, saved: u64) -> Result<(), Cause>
    ensures { Tests (end_fault page.now saved) result }
{
    if saved % NUMBERS == 0 {
        return Ok(());
    }
    let found = page.word((saved % NUMBERS) as usize);
    if found != END {
        return Err(Cause::PfnEnd { found });
    }
    Ok(())
}

/// Checks that the stream has as many pages as `saved` numbers need, of which `with_data` have a data page.
pub(crate) fn check_listed(saved: u64, pages: u64, with_data: u64) -> Result<(), Cause>
    requires few { saved < 2 ^ 52 }
    requires within { with_data ≤ saved }
    ensures { Tests (listed_fault saved pages with_data) result }
{
    if pages != with_data + number_page_count(saved) + 1 {
        return Err(Cause::BadCounts {
            image_pages: saved,
            pages,
        });
    }
    Ok(())
}
