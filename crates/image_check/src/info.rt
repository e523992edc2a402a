//! The info page of an image.
ghost use Rattle.std.specs.Prelude.{◌≡◌, ◌<◌, ◌==◌, ◌&&◌, nat_le, length};
ghost use Rattle.std.specs.List.{list_all, list_any};
ghost use Rattle.definitions.specs.Bytes.{bytes_at, number_at};
ghost use Rattle.definitions.specs.InfoPage.{text_of_name};
ghost use Rattle.image_check.specs.Info.{counts_fault, counts_in, follows, identity_findings, info_findings};
ghost use Rattle.image_check.specs.Info.{is_version_text, magic_fault, name_fault, size_fault};
ghost use Rattle.image_check.specs.Told.{Tells, each_below};

use crate::report::tell_any;
use crate::{Counts, Finding, Report};
use definitions::number_page_count;
use page_core::{Format, Page};

/// The number of bytes of a name, and the number of names (`__NEW_UTS_LEN` + 1, `struct new_utsname`).
const NAME_SIZE: usize = 65;

const NAMES: u32 = 6;

/// The offsets in bytes of the fields after the names (`struct swsusp_info`, kernel/power/power.h, 64-bit).
const VERSION_CODE: usize = 392;

const IMAGE_PAGES: usize = 416;

const PAGES: usize = 424;

const SIZE: usize = 432;

/// RESTORE_MAGIC (arch/x86/power/hibernate.c), and the index of its word.
const MAGIC: u64 = 0x2345_6789_abcd_ef02;

const MAGIC_WORD: usize = 3;

/// Returns what an info page says of the image's size.
pub fn counts_in(page: &Page) -> Counts
    ensures { result ≡ counts_in page.now }
{
    Counts {
        image_pages: page.word(IMAGE_PAGES / 8),
        pages: page.word(PAGES / 8),
    }
}

/// Reports what is wrong with an info page.
pub fn check_info<R: Report>(report: &mut R, format: Format, page: &Page)
    ensures { Tells (info_findings format page.now) (R.told report.old) (R.told report.new) }
{
    check_identity(report, page);
    let counts = counts_in(page);
    tell_any(report, counts_fault(format, &counts));
    tell_any(report, size_fault(page.word(SIZE / 8), counts.pages));
}

fn check_identity<R: Report>(report: &mut R, page: &Page)
    ensures { Tells (identity_findings page.now) (R.told report.old) (R.told report.new) }
{
    if page.u32_at(VERSION_CODE) == 0 {
        tell_any(report, magic_fault(page));
    } else {
        check_names(report, page);
    }
}

fn check_names<R: Report>(report: &mut R, page: &Page)
    ensures { Tells (each_below (name_fault page.now) 6) (R.told report.old) (R.told report.new) }
{
    for name in 0..NAMES {
        tell_any(report, name_fault(page, name));
    }
}

fn name_fault(page: &Page, name: u32) -> Option<Finding>
    requires { name < 6 }
    ensures { result ≡ name_fault page.now name }
{
    let at = NAME_SIZE * name as usize;
    if has_zero(&page.as_bytes()[at..at + NAME_SIZE]) {
        None
    } else {
        Some(Finding::NoEnd(name))
    }
}

fn has_zero(bytes: &[u8]) -> bool
    ensures { result ≡ list_any (λ b. b == 0) bytes.now }
{
    bytes.iter().any(|&b| b == 0)
}

fn magic_fault(page: &Page) -> Option<Finding>
    ensures { result ≡ magic_fault page.now }
{
    let magic = page.word(MAGIC_WORD);
    if magic == MAGIC || is_version_text(&page.as_bytes()[..NAME_SIZE]) {
        None
    } else {
        Some(Finding::Magic(magic))
    }
}

/// Returns whether a name is a version text that has an end.
fn is_version_text(name: &[u8]) -> bool
    ensures { result ≡ is_version_text (text_of_name name.now) }
{
    let len = text_len(name);
    0 < len && len < NAME_SIZE && is_printable(&name[..len])
}

/// Returns how many bytes a name has before its first zero byte.
fn text_len(name: &[u8]) -> usize
    ensures { result ≡ length (text_of_name name.now) }
{
    name.iter().take_while(|b| **b != 0).count()
}

fn is_printable(text: &[u8]) -> bool
    ensures { result ≡ list_all (λ b. nat_le 32 b && nat_le b 126) text.now }
{
    text.iter().all(|&b| b' ' <= b && b <= b'~')
}

fn counts_fault(format: Format, counts: &Counts) -> Option<Finding>
    ensures { result ≡ counts_fault format counts.now }
{
    if counts.image_pages == 0 || !follows(format, counts) {
        Some(Finding::Counts {
            image_pages: counts.image_pages,
            pages: counts.pages,
        })
    } else {
        None
    }
}

/// Returns whether the number of pages follows from the number of page frames.
fn follows(format: Format, counts: &Counts) -> bool
    ensures { result ≡ follows format counts.now }
{
    let least = number_page_count(counts.image_pages) + 1;
    let most = counts.image_pages.saturating_add(least);
    match format {
        Format::Plain => counts.pages >= least && counts.pages - least == counts.image_pages,
        Format::SkipZeros => least <= counts.pages && counts.pages <= most,
    }
}

fn size_fault(size: u64, pages: u64) -> Option<Finding>
    ensures { result ≡ size_fault size pages }
{
    if size % 4096 == 0 && size / 4096 == pages {
        None
    } else {
        Some(Finding::Size { size, pages })
    }
}
