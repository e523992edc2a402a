ghost use Rattle.std.specs.Prelude.{◌≡◌, ◌+◌, ◌<◌, ◌≤◌, ◌++◌, ◌∷◌, [], IfOk, OnOk, OnErr, Some};
ghost use Rattle.page_core.specs.declared.format.Format.{Format};
ghost use Rattle.image_check.specs.Told.{Tells};
ghost use Rattle.overlay_disk.specs.DiskState.{IsSame};
ghost use Rattle.expanded_disk.specs.Chains.{IsSameChain, StandsAt};
ghost use Rattle.expanded_disk.specs.Index.{checksum_wanted};
ghost use Rattle.expanded_disk.specs.Opens.{FindsUnits, OpensUnits};
ghost use Rattle.expanded_disk.specs.Passes.{Compares, OpensBehind, OpensChain, PassSays};

use crate::units::chain::{Chain, Read};
use crate::units::units::{read_unit, size_of, units_of};
use crate::units::{Index, Source, Unit, Walks};
use image_check::{Finding, Report, counts_in, format_of, is_compressed, limits_of, mark_in};
use image_format::{AreaKind, SF_NOCOMPRESS_MODE};
use image_pages::{accept_header, accept_info};
use overlay_disk::{Lent, Original};
use page_core::{NoMemory, Page};
use sector_disk::Disk;
use std::alloc::Global;
use std::marker::Brand;

/// The most pages that an image may have (8 TiB).
const MOST_PAGES: u64 = 2_147_483_648;

/// The offsets of the header block's checksum (`crc32`, struct swsusp_header) and of its flags.
const CRC32: usize = 4060;

const FLAGS: usize = 4072;

/// The header has the checksum of the units (kernel/power/power.h).
pub const SF_CRC32_MODE: u32 = 4;

/// The result of opening a compressed image.
#[derive(Drop)]
pub enum Opened {
    /// The header block, if the disk has it, isn't marked, or its image isn't compressed.
    Plain,
    /// The first fault was reported.
    Refused,
    /// The whole image was read, and nothing is wrong with it so far; the contents of its pages weren't checked.
    Whole(Index),
}

/// The result of a reading, without the index.
#[derive(Clone, Copy)]
enum Found {
    Plain,
    Refused,
    Whole,
}

/// The pages that come before the units.
#[derive(Clone, Copy)]
struct Front<'a> {
    header: &'a Page,
    info: &'a Page,
}

/// The units of an image.
#[derive(Drop)]
pub(crate) enum Units {
    Wrong(Finding),
    /// The page at which each unit starts, and the checksum of all units.
    Whole(Vec<u32>, u32),
}

/// Reads the whole image of the area whose header lies in block `header`, if it is compressed. An image of more than
/// 2^31 pages has no room in memory.
fn read_image<B: Walks, K: Original, R: Report>(
    alloc: Global,
    source: &mut Source<B, K>,
    header: u32,
    report: &mut R,
) -> Result<Opened, NoMemory>
    ensures opened { IfOk result (OpensUnits K.state.content K.state.blocks header
        K.state.faults (B.state source.new.below).faults (R.told report.old) (R.told report.new)) }
    ensures untold { OnErr result (R.told report.new ≡ R.told report.old) }
{
    let blocks = source.blocks();
    if header >= blocks {
        return Ok(Opened::Plain);
    }
    let mut page = Page::zero();
    if source.read(header, &mut page).is_err() {
        report.tell(Finding::HeaderUnread(header));
        return Ok(Opened::Refused);
    }
    let Some(mark) = mark_in(AreaKind::read(&page)) else {
        return Ok(Opened::Plain);
    };
    if !is_compressed(mark.flags) {
        return Ok(Opened::Plain);
    }
    let uncompressed = mark.flags + SF_NOCOMPRESS_MODE;
    if !accept_header(report, blocks, header, uncompressed, &page) {
        return Ok(Opened::Refused);
    }
    let limits = limits_of(blocks, header, &page);
    let chain = Chain::begin(alloc, &limits, mark.first)?;
    read_chain(alloc, source, &page, mark.flags, chain, report)
}

/// Reads the image of a header block with these flags, from its first map on.
fn read_chain<B: Walks, K: Original, R: Report>(
    alloc: Global,
    source: &mut Source<B, K>,
    header: &Page,
    flags: u32,
    mut chain: Chain,
    report: &mut R,
) -> Result<Opened, NoMemory>
    requires blocks { K.state.blocks ≡ chain.walker.limits.blocks }
    requires stands { StandsAt K.state.content chain }
    requires first { chain.count ≡ 0 }
    ensures opened { IfOk result (OpensChain K.state.content flags header.now chain
        K.state.faults (B.state source.new.below).faults (R.told report.old) (R.told report.new)) }
    ensures untold { OnErr result (R.told report.new ≡ R.told report.old) }
{
    let mut info = Page::zero();
    match chain.next(source, 0, &mut info)? {
        Read::Wrong(finding) => {
            report.tell(finding);
            Ok(Opened::Refused)
        }
        Read::Page(_) => {
            if !accept_info(report, format_of(flags), &info) {
                return Ok(Opened::Refused);
            }
            let front = Front {
                header,
                info: &info,
            };
            read_behind(alloc, source, front, chain, report)
        }
    }
}

/// Reads the image after its info page.
fn read_behind<B: Walks, K: Original, R: Report>(
    alloc: Global,
    source: &mut Source<B, K>,
    front: Front<'_>,
    mut chain: Chain,
    report: &mut R,
) -> Result<Opened, NoMemory>
    requires blocks { K.state.blocks ≡ chain.walker.limits.blocks }
    requires stands { StandsAt K.state.content chain }
    requires first { chain.count ≡ 1 }
    ensures opened { IfOk result (OpensBehind K.state.content front.entry.header.now front.entry.info.now chain
        K.state.faults (B.state source.new.below).faults (R.told report.old) (R.told report.new)) }
    ensures untold { OnErr result (R.told report.new ≡ R.told report.old) }
{
    let pages = counts_in(front.info).pages;
    if pages > MOST_PAGES {
        return Err(NoMemory);
    }
    match read_units(alloc, &mut chain, source, pages)? {
        Units::Wrong(finding) => {
            report.tell(finding);
            Ok(Opened::Refused)
        }
        Units::Whole(starts, crc) => {
            let index = index_of(front.header, front.info, pages, chain, starts);
            Ok(compare(index, crc, report))
        }
    }
}

/// Returns the index of an image.
fn index_of(header: &Page, info: &Page, pages: u64, chain: Chain, starts: Vec<u32>) -> Index
    requires { pages ≤ 2147483648 }
    ensures header { result.header ≡ header.now }
    ensures first { result.first ≡ chain.first }
    ensures info { result.info ≡ info.now }
    ensures pages { result.pages ≡ pages }
    ensures maps { result.maps.items ≡ chain.maps.items }
    ensures starts { result.starts.items ≡ starts.items }
{
    let Chain { first, maps, .. } = chain;
    Index {
        header: Page::from_bytes(header.as_bytes()),
        first,
        info: Page::from_bytes(info.as_bytes()),
        pages,
        maps,
        starts,
    }
}

/// Compares the checksum of the header, if it has one, with that of the units.
fn compare<R: Report>(index: Index, crc: u32, report: &mut R) -> Opened
    ensures { Compares index crc (R.told report.old) (R.told report.new) result }
{
    match checksum_wanted(&index.header) {
        None => Opened::Whole(index),
        Some(wanted) => {
            if wanted == crc {
                return Opened::Whole(index);
            }
            report.tell(Finding::Checksum {
                header: wanted,
                units: crc,
            });
            Opened::Refused
        }
    }
}

/// Returns the checksum of a header block, if it has one.
fn checksum_wanted(page: &Page) -> Option<u32>
    ensures { result ≡ checksum_wanted page.now }
{
    if page.u32_at(FLAGS) / SF_CRC32_MODE % 2 == 1 {
        Some(page.u32_at(CRC32))
    } else {
        None
    }
}

/// Reads the units of an image with `pages` pages.
fn read_units<B: Walks, K: Original>(
    alloc: Global,
    chain: &mut Chain,
    source: &mut Source<B, K>,
    pages: u64,
) -> Result<Units, NoMemory>
    requires blocks { K.state.blocks ≡ chain.old.walker.limits.blocks }
    requires stands { StandsAt K.state.content chain.old }
    requires first { chain.old.count ≡ 1 }
    requires few { pages ≤ 2147483648 }
    ensures says { IfOk result (PassSays K.state.content pages K.state.faults (B.state source.new.below).faults
        chain.old chain.new) }
    ensures same { IsSameChain chain.old chain.new }
{
    let mut unit = Unit::new(alloc)?;
    let mut starts = Vec::new(alloc);
    let mut crc = 0;
    for number in 0..units_of(pages) {
        add_start(&mut starts, chain.count)?;
        match read_unit(chain, source, &mut unit, pages, number)? {
            Some(finding) => return Ok(Units::Wrong(finding)),
            None => crc = unit.checksum(crc, size_of(pages, number)),
        }
    }
    add_start(&mut starts, chain.count)?;
    Ok(Units::Whole(starts, crc))
}

/// Adds the page at which a unit starts.
fn add_start(starts: &mut Vec<u32>, page: u64) -> Result<(), NoMemory>
    ensures { OnOk result (starts.new.items ≡ starts.old.items ++ page ∷ []) }
{
    let page = u32::try_from(page).map_err(|_| NoMemory)?;
    starts.push(page).map_err(|_| NoMemory)
}

/// Reads the whole image of the area whose header lies in block `header`, if it is compressed. Each unit is read once,
/// with memory for one unit, a few bits for each block of the disk, and the index. The disk is only read. An image of
/// more than 2^31 pages has no room in memory.
pub fn open<D: Disk, R: Report>(
    alloc: Global,
    disk: &mut D,
    header: u32,
    report: &mut R,
) -> Result<Opened, NoMemory>
    ensures opened { IfOk result (OpensUnits (D.content disk.old) (D.block_count disk.old) header
        (D.faults disk.old) (D.faults disk.new) (R.told report.old) (R.told report.new)) }
    ensures untold { OnErr result (R.told report.new ≡ R.told report.old) }
    ensures content { D.content disk.new ≡ D.content disk.old }
    ensures faults { D.faults disk.old ≤ D.faults disk.new }
    ensures orders { D.orders disk.new ≡ D.orders disk.old }
    ensures blocks { D.block_count disk.new ≡ D.block_count disk.old }
{
    let below = Lent { disk };
    let mut index = None;
    let over = open_below::<Lent<'_, D>, Brand, R>(alloc, below, header, report, &mut index);
    match over.1 {
        Err(NoMemory) => Err(NoMemory),
        Ok(Found::Plain) => Ok(Opened::Plain),
        Ok(Found::Refused) => Ok(Opened::Refused),
        Ok(Found::Whole) => match index {
            Some(index) => Ok(Opened::Whole(index)),
            None => unreachable!(),
        },
    }
}

/// Does the same over a disk that is only read and is given back, and stores the index of a whole image in its place.
fn open_below<B: Walks + Drop, K: Original, R: Report>(
    alloc: Global,
    below: B,
    header: u32,
    report: &mut R,
    into: &mut Option<Index>,
) -> (B, Result<Found, NoMemory>)
    requires { B.state below ≡ K.state }
    ensures opened { IfOk result.1 (λ found. FindsUnits K.state.content K.state.blocks header
        K.state.faults (B.state result.0).faults (R.told report.old) (R.told report.new) into.new found) }
    ensures untold { OnErr result.1 (R.told report.new ≡ R.told report.old) }
    ensures same { IsSame K.state (B.state result.0) }
    ensures faults { K.state.faults ≤ (B.state result.0).faults }
{
    let mut source = Source::<B, K>::over(below);
    let found = match read_image(alloc, &mut source, header, report) {
        Err(NoMemory) => Err(NoMemory),
        Ok(Opened::Plain) => Ok(Found::Plain),
        Ok(Opened::Refused) => Ok(Found::Refused),
        Ok(Opened::Whole(index)) => {
            *into = Some(index);
            Ok(Found::Whole)
        }
    };
    (source.into_below(), found)
}
