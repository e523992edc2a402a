ghost use Rattle.std.specs.Prelude.{◌≡◌, ℕ, ◌+◌, ◌≤◌, ◌<◌, ◌^◌};
ghost use Rattle.definitions.specs.NumberPages.{meta_of};
ghost use Rattle.plain_machine.specs.Image.{maps_of, maps_read};

use definitions::{MAP_PAGE_ENTRIES, WORDS_PER_PAGE};

/// Returns how many pages an image of `saved` page frames has, of which `with_data` have a data page: the info page, the
/// number pages and the data pages.
pub fn image_pages(saved: u32, with_data: u32) -> u32
    requires few_saved { saved ≤ 65536 }
    requires few_with_data { with_data ≤ 65536 }
    ensures pages { result ≡ with_data + meta_of saved + 1 }
    ensures few { result ≤ 65665 }
{
    with_data + saved.div_ceil(WORDS_PER_PAGE) + 1
}

/// Returns how many writes an image of `pages` pages takes: one for each page and for each map.
pub fn image_writes(pages: u32) -> u32
    requires few { pages + maps_of pages < 2 ^ 32 }
    ensures { result ≡ pages + maps_of pages }
{
    pages + pages / MAP_PAGE_ENTRIES + 1
}

/// Returns how many blocks of an image of `pages` pages a resume reads: the maps, as far as they name pages, and the
/// pages.
pub fn image_reads(pages: u32) -> u32
    requires few { maps_read pages + pages < 2 ^ 32 }
    ensures { result ≡ maps_read pages + pages }
{
    pages.div_ceil(MAP_PAGE_ENTRIES) + pages
}
