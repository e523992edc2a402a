ghost use Rattle.std.specs.Prelude.{◌≡◌, ◌==◌, ℕ, ◌+◌, ◌-◌, ◌*◌, ◌/◌, ◌%◌, ◌<◌, ◌≤◌, length, option_copied};
ghost use Rattle.std.specs.List.{list_any};
ghost use Rattle.definitions.specs.NumberPages.{meta_of, number_page, marked_numbers};
ghost use Rattle.definitions.specs.FrameSets.{blocks};
ghost use Rattle.frame_sets.specs.FrameSet.{IsFrameSet};
ghost use Rattle.frame_sets.specs.Places.{members_in, marked_number, count_below, IsSpan, IsWord};

use crate::Bitmap;
use definitions::WORDS_PER_PAGE;
use page_core::Page;

/// The word after the last number if its page isn't full (BM_END_OF_MAP).
const END: u64 = u64::MAX;

/// The bit that marks the number of a page of zeros, which has no data page in the image.
const ZERO_BIT: u64 = 1 << 63;

/// Makes `page` the number page `k`, from 0, of the page frames in `origs`. The numbers of those in `zeros` are marked.
pub fn pack(origs: &Bitmap, zeros: Option<&Bitmap>, k: u32, page: &mut Page)
    requires { k < meta_of (length origs.now.members) }
    ensures { page.new ≡ number_page (marked_numbers origs.now.members (members_in (option_copied zeros.entry))) k }
{
    let len = origs.len();
    let first = WORDS_PER_PAGE * k;
    let count = WORDS_PER_PAGE.min(len - first);
    let mut members = origs.iter_from(behind(origs, first));
    *page = Page::zero();
    for i in 0..count {
        let p = members.next().unwrap();
        page.set_word(i as usize, marked(p, zeros));
    }
    if count < WORDS_PER_PAGE {
        page.set_word(count as usize, END);
    }
}

/// Returns the number of a page frame as an image has it.
fn marked(p: u32, zeros: Option<&Bitmap>) -> u64
    ensures { result ≡ marked_number (members_in (option_copied zeros.entry)) p }
{
    let number = u64::from(p);
    if is_in(zeros, p) {
        number + ZERO_BIT
    } else {
        number
    }
}

/// Returns whether there is a set and a page frame is in it.
fn is_in(set: Option<&Bitmap>, p: u32) -> bool
    ensures { result ≡ list_any (λ q. q == p) (members_in (option_copied set.entry)) }
{
    match set {
        Some(set) => set.has(p),
        None => false,
    }
}

/// Returns a number with exactly `count` members of a set below it.
fn behind(set: &Bitmap, count: u32) -> u32
    requires set { IsFrameSet set.now }
    requires members { count ≤ length set.now.members }
    ensures { count_below set.now.members result ≡ count }
{
    let mut from = 0;
    let mut left = count;
    for w in 0..WORDS_PER_PAGE * set.blocks() {
        let word = word_of(set, w);
        let ones = word.count_ones();
        if left < ones {
            return behind_more(set, from, left);
        }
        if ones > 0 {
            from = set.first_from(from).unwrap() + width(word);
            left -= ones;
        }
    }
    from
}

/// Returns a word of a set. The words of all blocks are numbered in order from 0.
fn word_of(set: &Bitmap, w: u32) -> u64
    requires set { IsFrameSet set.now }
    requires within { w < WORDS_PER_PAGE * length (blocks set.now.zones) }
    ensures { IsWord set.now w result }
{
    set.words(w / WORDS_PER_PAGE)[(w % WORDS_PER_PAGE) as usize]
}

/// Returns a number with exactly `more` more members below it than `from` has.
fn behind_more(set: &Bitmap, from: u32, more: u32) -> u32
    requires set { IsFrameSet set.now }
    requires members { count_below set.now.members from + more ≤ length set.now.members }
    ensures { count_below set.now.members result ≡ count_below set.now.members from + more }
{
    let mut members = set.iter_from(from);
    let mut past = from;
    for _ in 0..more {
        past = members.next().unwrap() + 1;
    }
    past
}

/// Returns how many places there are from the lowest bit of a word that is 1 to the highest.
fn width(word: u64) -> u32
    requires { 0 < word }
    ensures { (low : ℕ) × IsSpan word low result }
{
    64 - word.leading_zeros() - word.trailing_zeros()
}
