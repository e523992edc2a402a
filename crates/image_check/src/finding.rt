use compression::lzo::LzoFault;
use image_format::AreaFault;
use image_walk::BlockFault;

/// What an info page says of an image's size.
#[derive(Clone, Copy)]
pub struct Counts {
    /// How many page frames were saved (`image_pages`).
    pub image_pages: u64,
    /// How many pages the image has, including the info page and the number pages (`pages`).
    pub pages: u64,
}

/// An entry of a map page. Maps count from 1, entries from 0.
#[derive(Clone, Copy)]
pub struct Place {
    pub map: u32,
    /// The block of the map.
    pub at: u64,
    pub entry: u32,
}

/// What is wrong with an image. Number pages count from 1, their words from 0.
#[derive(Clone, Copy)]
pub enum Finding {
    /// The header block of the area couldn't be read.
    HeaderUnread(u32),
    /// `orig_sig` isn't the signature of a swap area.
    OriginalSignature,
    /// With its mark taken back, the header would be that of an area with a fault.
    Area(AreaFault),
    /// The area ends past the end of the file.
    LastPage {
        last: u32,
        blocks: u32,
    },
    /// SF_NOCOMPRESS_MODE isn't set.
    Compressed(u32),
    /// The block that the header or a link names as a map.
    Map {
        map: u32,
        why: BlockFault,
    },
    /// The last map has no link, though entries are wanted.
    Ends {
        map: u32,
        pages: u64,
    },
    /// A map after the last one that a writer makes.
    AfterMaps {
        map: u32,
        block: u64,
    },
    /// The block that an entry names.
    Entry {
        place: Place,
        why: BlockFault,
    },
    /// An entry after the last page isn't 0.
    AfterPages {
        place: Place,
        block: u64,
    },
    /// A name of 65 bytes without a zero byte, from 0 to 5 in the order of `struct new_utsname`.
    NoEnd(u32),
    /// Neither a version code, nor a version text, nor the magic number of an x86-64 header (`restore_data_record`).
    Magic(u64),
    /// No page frame was saved, or `pages` doesn't follow from `image_pages`.
    Counts {
        image_pages: u64,
        pages: u64,
    },
    /// `size` isn't the number of bytes of the pages.
    Size {
        size: u64,
        pages: u64,
    },
    /// A page frame whose address would have more than 64 bits.
    Number {
        page: u64,
        word: u32,
        number: u64,
    },
    /// A number that isn't above the one before it.
    Order {
        page: u64,
        word: u32,
        number: u64,
        before: u64,
    },
    /// The word after the last number isn't 2^64-1.
    End {
        page: u64,
        word: u32,
        found: u64,
    },
    /// Pages of zeros have no data page, and `pages` doesn't follow from the count of numbers that have one.
    DataPages {
        counted: u64,
        pages: u64,
    },
    /// The length at the beginning of a unit of a compressed image, in the page that this entry names. Units count from
    /// 1.
    UnitLength {
        unit: u32,
        place: Place,
        length: u64,
    },
    /// The first fault of a unit's stream, with its offset in the compressed bytes.
    UnitStream {
        unit: u32,
        why: LzoFault,
    },
    /// A unit expands to fewer bytes than its pages have.
    UnitSize {
        unit: u32,
        bytes: u64,
        wanted: u64,
    },
    /// The checksum in the header (`crc32`), and that of the units.
    Checksum {
        header: u32,
        units: u32,
    },
}
