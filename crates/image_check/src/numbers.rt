//! The pages of page frame numbers.
ghost use Rattle.std.specs.Prelude.{◌≡◌, ◌<◌, ◌^◌, ◌-◌};
ghost use Rattle.definitions.specs.Bytes.{word};
ghost use Rattle.image_check.specs.Numbers.{data_words, end_fault, frame_of, number_fault, number_findings};
ghost use Rattle.image_check.specs.Numbers.{order_fault, word_before, word_fault};
ghost use Rattle.image_check.specs.Told.{Tells};

use crate::report::tell_any;
use crate::{Finding, Report};
use definitions::WORDS_PER_PAGE;
use page_core::{Format, Page};

/// What follows the last number (BM_END_OF_MAP).
const END: u64 = u64::MAX;

/// The bit that marks a page of zeros without a data page (this project's own).
const ZERO_BIT: u64 = 1 << 63;

/// The first number that isn't a page frame's: its address would have more than 64 bits.
const NO_FRAME: u64 = 1 << 52;

/// A number page of an image.
#[derive(Clone, Copy)]
pub(crate) struct NumberPage {
    pub format: Format,
    /// How many numbers the image has.
    pub numbers: u64,
    /// The index of the page. Number pages count from 1.
    pub page: u64,
}

/// Reports what is wrong with the words of a number page; `previous` is the last word of the page before it.
pub(crate) fn check_numbers<R: Report>(
    report: &mut R,
    of: NumberPage,
    previous: Option<u64>,
    bytes: &Page,
)
    requires { of.page < 2 ^ 42 }
    ensures { Tells (number_findings of.format of.numbers of.page previous bytes.now)
        (R.told report.old) (R.told report.new) }
{
    for i in 0..WORDS_PER_PAGE {
        tell_any(
            report,
            word_fault(
                of,
                i,
                bytes.word(i as usize),
                word_before(previous, bytes, i),
            ),
        );
    }
}

/// Returns the word before word `i` of a page.
fn word_before(previous: Option<u64>, bytes: &Page, i: u32) -> Option<u64>
    requires { i < WORDS_PER_PAGE }
    ensures { result ≡ word_before previous bytes.now i }
{
    if i == 0 {
        previous
    } else {
        Some(bytes.word(i as usize - 1))
    }
}

fn word_fault(of: NumberPage, i: u32, word: u64, before: Option<u64>) -> Option<Finding>
    requires page { of.page < 2 ^ 42 }
    requires word { i < WORDS_PER_PAGE }
    ensures { result ≡ word_fault of.format of.numbers of.page i word before }
{
    let index = u64::from(WORDS_PER_PAGE) * of.page.saturating_sub(1) + u64::from(i);
    if index < of.numbers {
        number_fault(of, i, word, before)
    } else if index == of.numbers && word != END {
        Some(Finding::End {
            page: of.page,
            word: i,
            found: word,
        })
    } else {
        None
    }
}

fn number_fault(of: NumberPage, i: u32, word: u64, before: Option<u64>) -> Option<Finding>
    ensures { result ≡ number_fault of.format of.page i word before }
{
    let number = frame_of(of.format, word);
    if number >= NO_FRAME {
        return Some(Finding::Number {
            page: of.page,
            word: i,
            number,
        });
    }
    let before = frame_of(of.format, before?);
    if number <= before {
        Some(Finding::Order {
            page: of.page,
            word: i,
            number,
            before,
        })
    } else {
        None
    }
}

/// Returns how many words of a number page are numbers that have a data page, in an image of `numbers` numbers. Number
/// pages count from 1.
pub(crate) fn data_words(numbers: u64, page: u64, bytes: &Page) -> u64
    requires { page < 2 ^ 42 }
    ensures { result ≡ data_words numbers page bytes.now }
{
    let first = u64::from(WORDS_PER_PAGE) * page.saturating_sub(1);
    let words = 0..u64::from(WORDS_PER_PAGE);
    words
        .filter(|&i| first + i < numbers && bytes.word(i as usize) < ZERO_BIT)
        .count() as u64
}

/// Returns the page frame number of a word.
fn frame_of(format: Format, word: u64) -> u64
    ensures { result ≡ frame_of format word }
{
    match format {
        Format::Plain => word,
        Format::SkipZeros => word % ZERO_BIT,
    }
}
