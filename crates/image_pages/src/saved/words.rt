//! The words of a page of page frame numbers.
ghost use Rattle.std.specs.Prelude.{◌≡◌, ◌≢◌, ◌<◌, ◌≤◌, ℕ, IfSome, IfNone};
ghost use Rattle.definitions.specs.Bytes.{word};
ghost use Rattle.image_check.specs.Numbers.{frame_of};
ghost use Rattle.image_pages.specs.Ahead.{data_words};
ghost use Rattle.image_pages.specs.Saved.{has_page};
ghost use Rattle.definitions.specs.declared.counts.TheConstants.{WORDS_PER_PAGE};

use page_core::{Format, Page};

/// The bit of a number whose page is zeros and has no data page (this project's own).
const ZERO_BIT: u64 = 1 << 63;

/// Returns the page frame number of a word.
pub fn frame_of(format: Format, word: u64) -> u64
    ensures { result ≡ frame_of format word }
{
    match format {
        Format::Plain => word,
        Format::SkipZeros => word % ZERO_BIT,
    }
}

/// Returns whether the page of a word is a data page.
pub fn has_page(format: Format, word: u64) -> bool
    ensures { result ≡ has_page format word }
{
    match format {
        Format::Plain => true,
        Format::SkipZeros => word < ZERO_BIT,
    }
}

/// Returns the index of the word that has page frame number `number`, among the first `count`, at most 512, of a page.
pub(crate) fn find_word(page: &Page, format: Format, count: u64, number: u64) -> Option<u64>
    requires { count ≤ WORDS_PER_PAGE }
    ensures found { IfSome result (λ i. (i < count) × (frame_of format (word page.now i) ≡ number)) }
    ensures none { IfNone result ((i : ℕ) → i < count → frame_of format (word page.now i) ≢ number) }
{
    for i in 0..count {
        if frame_of(format, page.word(i as usize)) == number {
            return Some(i);
        }
    }
    None
}

/// Returns how many of the first `count` words of a page, at most 512, have a data page.
pub(crate) fn data_words(page: &Page, format: Format, count: u64) -> u64
    requires { count ≤ WORDS_PER_PAGE }
    ensures dense { result ≡ data_words format page.now count }
    ensures few { result ≤ count }
{
    let mut found = 0;
    for i in 0..count {
        if has_page(format, page.word(i as usize)) {
            found += 1;
        }
    }
    found
}
