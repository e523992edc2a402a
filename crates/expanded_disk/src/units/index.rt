ghost use Rattle.std.specs.Prelude.{◌≤◌};
ghost use Rattle.definitions.specs.Bytes.{IsPage};

use page_core::Page;

/// Where the units of a compressed image lie. It takes 4 bytes for each unit, and 8 for each map.
#[derive(Drop)]
pub struct Index {
    /// The header block of the area.
    pub header: Page,
    /// The block of the first map.
    pub first: u64,
    /// The info page, which isn't compressed.
    pub info: Page,
    /// How many pages the image has, including the info page.
    pub pages: u64,
    /// The blocks of the maps.
    pub maps: Vec<u64>,
    /// The page of the chain at which each unit starts, and the page after the last one.
    pub starts: Vec<u32>,
    ghost few: { pages ≤ 2147483648 },
    ghost header_page: { IsPage header },
    ghost info_page: { IsPage info },
}
