//! Pages of an image that skips pages of zeros, as they are in the plain format.
ghost use Rattle.std.specs.Prelude.{◌≡◌, ◌<◌};
ghost use Rattle.image_check.specs.Info.{counts_in};
ghost use Rattle.image_stream.specs.Plain.{plain_info, plain_numbers, plain_word};

use definitions::{WORDS_PER_PAGE, number_page_count};
use image_pages::frame_of;
use page_core::{Format, Page};

/// How many numbers a page of page frame numbers has.
pub(crate) const NUMBERS: u64 = WORDS_PER_PAGE as u64;

/// The indices of the words of an info page that count its pages and their bytes (struct swsusp_info,
/// kernel/power/power.h).
const PAGES: usize = 424 / 8;

const SIZE: usize = 432 / 8;

/// Returns the info page for `numbers` saved page frames, which counts a data page for each of them.
pub(crate) fn plain_info(info: &Page, numbers: u64) -> Page
    requires { (counts_in info.now).image_pages ≡ numbers }
    ensures { result ≡ plain_info info.now }
{
    let pages = numbers
        .wrapping_add(number_page_count(numbers))
        .wrapping_add(1);
    let mut plain = Page::from_bytes(info.as_bytes());
    plain.set_word(PAGES, pages);
    plain.set_word(SIZE, pages.wrapping_mul(4096));
    plain
}

/// Returns a page of page frame numbers without their marks. Its first `count` words are numbers.
pub(crate) fn plain_numbers(page: &Page, count: u64) -> Page
    ensures { result ≡ plain_numbers count page.now }
{
    let mut plain = Page::zero();
    for i in 0..NUMBERS {
        plain.set_word(i as usize, plain_word(page, i, count));
    }
    plain
}

/// Returns word `i` of that page.
fn plain_word(page: &Page, i: u64, count: u64) -> u64
    requires { i < WORDS_PER_PAGE }
    ensures { result ≡ plain_word count page.now i }
{
    let word = page.word(i as usize);
    if i < count {
        frame_of(Format::SkipZeros, word)
    } else {
        word
    }
}
