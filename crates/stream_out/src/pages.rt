ghost use Rattle.std.specs.Prelude.{◌≡◌, ℕ, ◌+◌, ◌^◌, ◌<◌, ◌≤◌, [], List, length, slice_index_or, slice_index};
ghost use Rattle.definitions.specs.NumberPages.{meta_of};
ghost use Rattle.stream_out.specs.Pages.{info_over, stream_over};

use crate::cursor::{Cursor, hand_out};
use definitions::WORDS_PER_PAGE;
use frame_arena::Frames;
use frame_sets::Bitmap;
use frame_sets::packing::pack;
use image_format::info::{Info, encode};
use machine::Hardware;
use page_core::Page;

/// Returns how many pages come before the data pages: the info page and the number pages of `n` page frames.
pub fn head_pages(n: u32) -> u32
    ensures { result ≡ meta_of n + 1 }
{
    n.div_ceil(WORDS_PER_PAGE) + 1
}

/// Returns what the info page says.
fn info(hw: &Hardware, n: u32) -> Info
    requires { n ≤ 65536 }
    ensures { result ≡ info_over hw.now n }
{
    Info {
        ident: *hw.ident(),
        physpages: u64::from(hw.zones().count()),
        image_pages: u64::from(n),
        pages: u64::from(n + head_pages(n)),
    }
}

/// Makes page `k` of the stream, from 0, which must be the info page or a number page.
fn head_page(hw: &Hardware, saveable: &Bitmap, k: u32) -> Page
    requires { k ≤ meta_of (length saveable.now.members) }
    ensures { (saved : List (List ℕ)) → result ≡ slice_index_or (stream_over hw.now saveable.now.members saved) k [] }
{
    if k == 0 {
        return encode(&info(hw, saveable.len()));
    }
    let mut page = Page::zero();
    pack(saveable, None, k - 1, &mut page);
    page
}

ghost use Rattle.stream_out.specs.Pages.{IsHead};
ghost use Rattle.stream_out.specs.Cursor.{IsPart};

/// Hands out a part of the info page or of a number page. The page is made when its first byte is handed out.
pub fn hand_out_head(
    hw: &Hardware,
    saveable: &Bitmap,
    head: &mut Page,
    cursor: &mut Cursor,
    into: &mut [u8],
) -> usize
    requires at { cursor.old.at < 4096 }
    requires page { cursor.old.page ≤ meta_of (length saveable.now.members) }
    requires made { 0 < cursor.old.at → IsHead hw.now saveable.now.members cursor.old.page head.old }
    requires some { 0 < length into.old }
    ensures part { (saved : List (List ℕ)) →
        IsPart (slice_index_or (stream_over hw.now saveable.now.members saved) cursor.old.page []) cursor.old cursor.new
        into.old into.new result }
    ensures made { 0 < cursor.new.at → IsHead hw.now saveable.now.members cursor.new.page head.new }
    ensures from { cursor.new.from ≡ cursor.old.from }
{
    // A set has fewer than 2^32 page frames.
    let _ = saveable.len();
    if cursor.at == 0 {
        *head = head_page(hw, saveable, cursor.page);
    }
    hand_out(head.as_bytes(), cursor, into)
}

ghost use Rattle.std.specs.Prelude.{◌-◌, All};
ghost use Rattle.definitions.specs.Tables.{frame};
ghost use Rattle.frame_sets.specs.Places.{count_below};

/// Hands out a part of the next data page, from its page frame.
pub fn hand_out_data(
    frames: &Frames,
    saveable: &Bitmap,
    cursor: &mut Cursor,
    into: &mut [u8],
) -> usize
    requires at { cursor.old.at < 4096 }
    requires few { cursor.old.page < 2 ^ 31 }
    requires more { count_below saveable.now.members cursor.old.from < length saveable.now.members }
    requires within { All (λ p. p < length frames.now) saveable.now.members }
    requires some { 0 < length into.old }
    ensures part { IsPart (frame frames.now
        (slice_index saveable.now.members (count_below saveable.now.members cursor.old.from)))
        cursor.old cursor.new into.old into.new result }
    ensures from { count_below saveable.now.members cursor.new.from
        ≡ count_below saveable.now.members cursor.old.from + (cursor.new.page - cursor.old.page) }
{
    saveable.is_frame_set();
    let p = saveable.first_from(cursor.from).unwrap();
    let count = hand_out(frames.page(p).as_bytes(), cursor, into);
    if cursor.at == 0 {
        cursor.from = p + 1;
    }
    count
}
