ghost use Rattle.std.specs.Prelude.{◌≡◌, ℕ, ◌^◌, ◌<◌, ◌≤◌, [], List, length, slice_index_or, option_copied};
ghost use Rattle.definitions.specs.NumberPages.{meta_of, marked_numbers};
ghost use Rattle.frame_sets.specs.Places.{members_in};
ghost use Rattle.plain_machine.specs.Image.{stream_pages};

use frame_sets::Bitmap;
use frame_sets::packing::pack;
use image_format::info::{Info, encode};
use page_core::Page;

/// Makes page `k` of the stream, from 0, which must be the info page or a number page.
pub fn head_page(info: &Info, origs: &Bitmap, zeros: Option<&Bitmap>, k: u32) -> Page
    requires few { info.now.pages < 2 ^ 52 }
    requires head { k ≤ meta_of (length origs.now.members) }
    ensures { (saved : List (List ℕ)) → result ≡ slice_index_or
        (stream_pages info.now (marked_numbers origs.now.members (members_in (option_copied zeros.entry))) saved) k [] }
{
    if k == 0 {
        return encode(info);
    }
    let mut page = Page::zero();
    pack(origs, zeros, k - 1, &mut page);
    page
}
