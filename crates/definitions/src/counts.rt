ghost use Rattle.std.specs.Prelude.{◌≡◌};
ghost use Rattle.definitions.specs.NumberPages.{meta_of};

/// The entries of a page of the swap map, before its link (kernel/power/swap.c).
pub const MAP_PAGE_ENTRIES: u32 = 511;

/// The words of 8 bytes in a page. A number page has a frame number in each (`pack_pfns`, kernel/power/snapshot.c).
pub const WORDS_PER_PAGE: u32 = 512;

/// The blocks of a map page and of the pages that its entries name.
pub const BLOCKS_PER_MAP: u32 = MAP_PAGE_ENTRIES + 1;

/// The entries of 4 bytes in a page frame of a table.
pub const ENTRIES_PER_FRAME: u32 = 1024;

/// The page frames, and the slots, that a hibernation leaves for other writes: 4 MiB (kernel/power/power.h).
pub const PAGES_FOR_IO: u32 = 1024;

/// The free page frames that a hibernation needs beyond those to be saved: more than `PAGES_FOR_IO`
/// (`enough_free_mem`, kernel/power/snapshot.c).
pub const SPARE_FRAMES: u32 = PAGES_FOR_IO + 1;

/// The free slots that an image needs beyond its pages: one for the first map, and then more than `PAGES_FOR_IO`
/// (`enough_swap`, kernel/power/swap.c).
pub const SPARE_SLOTS: u32 = PAGES_FOR_IO + 2;

/// The bytes of a sector. The disk keeps a sector whole.
pub const SECTOR_SIZE: usize = 512;

/// Returns how many number pages hold the numbers of `saved` page frames.
pub fn number_page_count(saved: u64) -> u64
    ensures { result ≡ meta_of saved }
{
    saved.div_ceil(u64::from(WORDS_PER_PAGE))
}
