//! What is wrong with an image, as numbers.
ghost use Rattle.std.specs.Prelude.{◌≡◌};
ghost use Rattle.swsusp_c.specs.Findings.{at_place, block_numbers, finding_code, four, kind_number, no_entry};

use crate::inspect::fault_of;
use compression::lzo::Kind;
use image_check::{Finding, Place, Report};
use image_walk::BlockFault;

/// The number of findings that are kept.
pub(crate) const ROOM: usize = 1100;

/// Something wrong with an image (`struct swsusp_finding`). Numbers that a kind doesn't name are 0.
#[repr(C)]
#[derive(Clone, Copy)]
pub struct SwsuspFinding {
    /// `SWSUSP_HEADER_UNREAD` to `SWSUSP_CHECKSUM`.
    pub kind: u32,
    /// Why an area can't be used, or why a named block can't be a page of the image.
    pub fault: u32,
    /// The number of a map, from 1, and of its entry, from 0.
    pub map: u32,
    pub entry: u32,
    /// The block of the entry's map.
    pub at: u64,
    pub first: u64,
    pub second: u64,
    pub third: u64,
    pub fourth: u64,
}

/// The findings of a call (`struct swsusp_findings`).
#[repr(C)]
#[derive(Drop)]
pub struct SwsuspFindings {
    /// The number of findings.
    pub count: u64,
    /// The first findings.
    pub found: [SwsuspFinding; ROOM],
}

impl Report for SwsuspFindings {
    ghost use Rattle.swsusp_c.specs.Findings.{told_of};

    ghost told = { told_of };

    fn tell(&mut self, finding: Finding) {
        let place = self.count;
        self.count = self.count.saturating_add(1);
        if place < ROOM as u64 {
            self.found[place as usize] = finding_code(finding);
        }
    }

    fn count(&self) -> u64 {
        self.count
    }
}

fn four(kind: u32, first: u64, second: u64, third: u64, fourth: u64) -> SwsuspFinding
    ensures { result ≡ four kind first second third fourth }
{
    SwsuspFinding {
        kind,
        fault: 0,
        map: 0,
        entry: 0,
        at: 0,
        first,
        second,
        third,
        fourth,
    }
}

fn at_place(kind: u32, place: Place, fault: u32, first: u64, second: u64) -> SwsuspFinding
    ensures { result ≡ at_place kind place fault first second }
{
    SwsuspFinding {
        kind,
        fault,
        map: place.map,
        entry: place.entry,
        at: place.at,
        first,
        second,
        third: 0,
        fourth: 0,
    }
}

/// Returns the place of a map.
fn no_entry(map: u32) -> Place
    ensures { result ≡ no_entry map }
{
    Place {
        map,
        at: 0,
        entry: 0,
    }
}

/// Returns the numbers of a finding.
fn finding_code(finding: Finding) -> SwsuspFinding
    ensures { result ≡ finding_code finding }
{
    match finding {
        Finding::HeaderUnread(block) => four(1, u64::from(block), 0, 0, 0),
        Finding::OriginalSignature => four(2, 0, 0, 0, 0),
        Finding::Area(why) => {
            let (fault, number) = fault_of(why);
            at_place(3, no_entry(0), fault, u64::from(number), 0)
        }
        Finding::LastPage { last, blocks } => four(4, u64::from(last), u64::from(blocks), 0, 0),
        Finding::Compressed(flags) => four(5, u64::from(flags), 0, 0, 0),
        Finding::Map { map, why } => {
            let (fault, block) = block_numbers(why);
            at_place(6, no_entry(map), fault, block, 0)
        }
        Finding::Ends { map, pages } => at_place(7, no_entry(map), 0, pages, 0),
        Finding::AfterMaps { map, block } => at_place(8, no_entry(map), 0, block, 0),
        Finding::Entry { place, why } => {
            let (fault, block) = block_numbers(why);
            at_place(9, place, fault, block, 0)
        }
        Finding::AfterPages { place, block } => at_place(10, place, 0, block, 0),
        Finding::NoEnd(name) => four(11, u64::from(name), 0, 0, 0),
        Finding::Magic(magic) => four(12, magic, 0, 0, 0),
        Finding::Counts { image_pages, pages } => four(13, image_pages, pages, 0, 0),
        Finding::Size { size, pages } => four(14, size, pages, 0, 0),
        Finding::Number { page, word, number } => four(15, page, u64::from(word), number, 0),
        Finding::Order {
            page,
            word,
            number,
            before,
        } => four(16, page, u64::from(word), number, before),
        Finding::End { page, word, found } => four(17, page, u64::from(word), found, 0),
        Finding::DataPages { counted, pages } => four(18, counted, pages, 0, 0),
        Finding::UnitLength {
            unit,
            place,
            length,
        } => at_place(19, place, 0, u64::from(unit), length),
        Finding::UnitStream { unit, why } => at_place(
            20,
            no_entry(0),
            kind_number(why.kind),
            u64::from(unit),
            why.at as u64,
        ),
        Finding::UnitSize {
            unit,
            bytes,
            wanted,
        } => four(21, u64::from(unit), bytes, wanted, 0),
        Finding::Checksum { header, units } => four(22, u64::from(header), u64::from(units), 0, 0),
    }
}

/// Returns the number of a block's fault, and the block.
fn block_numbers(why: BlockFault) -> (u32, u64)
    ensures { result ≡ block_numbers why }
{
    match why {
        BlockFault::Zero => (1, 0),
        BlockFault::BeyondFile(block) => (2, block),
        BlockFault::BeyondLast(block) => (3, block),
        BlockFault::Bad(block) => (4, block),
        BlockFault::Again(block) => (5, block),
        BlockFault::Unread(block) => (6, block),
    }
}

fn kind_number(kind: Kind) -> u32
    ensures { result ≡ kind_number kind }
{
    match kind {
        Kind::Versioned => 1,
        Kind::InputTooShort => 2,
        Kind::OutputTooLong => 3,
        Kind::BeforeBegin => 4,
        Kind::BadEnd => 5,
        Kind::BehindEnd => 6,
    }
}
