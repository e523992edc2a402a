//! The blocks that the expanding disk generates itself.
ghost use Rattle.std.specs.Prelude.{◌≡◌, ◌<◌, ◌≤◌, ◌+◌, ◌^◌};
ghost use Rattle.definitions.specs.Bytes.{IsPage};
ghost use Rattle.expanded_disk.specs.Laid.{blocks_for, laid_map, map_word, plain_flags_of, plain_header};
ghost use Rattle.expanded_disk.specs.Parts.{IsPart};

use crate::units::SF_CRC32_MODE;
use definitions::{BLOCKS_PER_MAP, MAP_PAGE_ENTRIES, WORDS_PER_PAGE};
use image_format::SF_NOCOMPRESS_MODE;
use page_core::Page;

/// The number of entries of a map page (MAP_PAGE_ENTRIES), and the number of its words.
const ENTRIES: u64 = MAP_PAGE_ENTRIES as u64;

/// The blocks of a map and its pages.
const BLOCKS: u64 = BLOCKS_PER_MAP as u64;

/// The words of a page.
const WORDS: u64 = WORDS_PER_PAGE as u64;

/// The offsets in bytes of the fields of the header block (`union swap_header`, include/linux/swap.h; struct
/// swsusp_header, kernel/power/swap.c).
const LAST_PAGE: usize = 1028;

const NR_BADPAGES: usize = 1032;

const IMAGE: usize = 4064;

const FLAGS: usize = 4072;

/// The part of the expanded image that a block is.
#[derive(Clone, Copy)]
pub(crate) enum Part {
    Header,
    /// A map, from 0.
    Map(u64),
    /// A page of the image, from 0.
    Page(u64),
}

/// Returns which part block `b` is.
pub(crate) fn part_of(b: u32) -> Part
    ensures { IsPart b result }
{
    if b == 0 {
        return Part::Header;
    }
    let behind = u64::from(b) - 1;
    let map = behind / BLOCKS;
    if behind % BLOCKS == 0 {
        Part::Map(map)
    } else {
        Part::Page(ENTRIES * map + behind % BLOCKS - 1)
    }
}

/// Returns how many blocks an image with `pages` pages takes.
pub(crate) fn blocks_for(pages: u64) -> u32
    requires { pages ≤ 2147483648 }
    ensures { result ≡ blocks_for pages }
{
    (1 + pages + pages.div_ceil(ENTRIES)) as u32
}

/// Returns the header block of the expanded image.
#[tactic(auto, unfolding(crate::specs::Laid::plain_header))]
pub(crate) fn plain_header(header: &Page, pages: u64) -> Page
    requires { pages ≤ 2147483648 }
    ensures { result ≡ plain_header header.now pages }
{
    let flags = plain_flags(header.u32_at(FLAGS));
    let mut page = Page::from_bytes(header.as_bytes());
    page.put_u32(LAST_PAGE, blocks_for(pages) - 1);
    page.put_u32(NR_BADPAGES, 0);
    page.set_word(IMAGE / 8, 1);
    page.put_u32(FLAGS, flags);
    page
}

/// Returns the flags of an image that isn't compressed, and has no checksum.
fn plain_flags(flags: u32) -> u32
    ensures { result ≡ plain_flags_of flags }
{
    let compressed = if flags / SF_NOCOMPRESS_MODE % 2 == 0 {
        flags + SF_NOCOMPRESS_MODE
    } else {
        flags
    };
    if flags / SF_CRC32_MODE % 2 == 1 {
        compressed - SF_CRC32_MODE
    } else {
        compressed
    }
}

/// Returns a map of the expanded image, counted from 0.
#[tactic(auto, unfolding(crate::specs::Laid::laid_map))]
pub(crate) fn laid_map(pages: u64, map: u64) -> Page
    requires { map < 2 ^ 32 }
    ensures { result ≡ laid_map pages map }
{
    let mut page = Page::zero();
    for word in 0..WORDS {
        page.set_word(word as usize, map_word(pages, map, word));
    }
    page
}

/// Returns a word of that map.
fn map_word(pages: u64, map: u64, word: u64) -> u64
    requires map { map < 2 ^ 32 }
    requires word { word < WORDS_PER_PAGE }
    ensures { result ≡ map_word pages map word }
{
    if word == ENTRIES {
        if ENTRIES * map + ENTRIES < pages {
            BLOCKS * map + BLOCKS + 1
        } else {
            0
        }
    } else if ENTRIES * map + word < pages {
        BLOCKS * map + word + 2
    } else {
        0
    }
}
