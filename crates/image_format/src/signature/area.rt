ghost use Rattle.std.specs.Prelude.{◌≡◌, ℕ, ◌+◌, ◌-◌, ◌*◌, ◌<◌, ◌≤◌, ◌++◌, List, length, take, replicate, flat_map};
ghost use Rattle.byteorder.specs.Endian.{little_bytes};
ghost use Rattle.definitions.specs.Bytes.{IsPage, with_bytes};
ghost use Rattle.definitions.specs.SwapHeader.{bad_pages_of, first_outside, area_page};
ghost use Rattle.image_format.specs.AreaKind.{area_of, mark_of, version_1_kind};

use crate::signature::layout::{
    self, BADPAGES, FLAGS, HW_SIG, LAST_PAGE, MOST_BADPAGES, NR_BADPAGES, SIG, VERSION,
};
use crate::signature::signatures::{AREA, IMAGE, OLD, signature, with_signature};
use page_core::Page;
use thiserror::Error;

/// A version 1 swap area, as its header block describes it (`union swap_header`, include/linux/swap.h).
#[derive(Clone, Copy, Debug, PartialEq, Eq)]
pub struct Area {
    /// The last slot (`last_page`).
    pub last: u32,
    /// The number of bad pages that the header names (`nr_badpages`).
    pub count: u32,
    /// The bad pages (`badpages`): the first `count` entries. All others are 0.
    pub bad: [u32; MOST_BADPAGES],
}

/// A header block that carries the signature of an image (`struct swsusp_header`, kernel/power/swap.c).
/// Its fields are untested.
#[derive(Clone, Copy, Debug, PartialEq, Eq)]
pub struct Mark {
    /// The word at `last_page`.
    pub last: u32,
    /// The word at `nr_badpages`.
    pub count: u32,
    /// The block of the first swap map page (`image`).
    pub first: u64,
    /// The flags, such as SF_NOCOMPRESS_MODE.
    pub flags: u32,
    /// The hardware signature that the image was made under, if SF_HW_SIG is set.
    pub hw_sig: u32,
}

/// Why a block with the signature `SWAPSPACE2` isn't an area that can be used.
#[derive(Clone, Copy, Debug, PartialEq, Eq, Error)]
pub enum AreaFault {
    /// The version isn't 1.
    #[error("version {version}")]
    Version { version: u32 },
    /// More than 630 bad pages.
    #[error("{count} bad pages")]
    BadCount { count: u32 },
    /// There is no slot except the header's.
    #[error("last page 0")]
    LastZero,
    /// The first bad page that is 0 or above the last slot.
    #[error("bad page {slot} is no slot")]
    BadEntry { slot: u32 },
}

/// What the header block of a swap area says.
#[derive(Clone, Copy, Debug, PartialEq, Eq)]
pub enum AreaKind {
    /// An area with an image.
    Image(Mark),
    /// A version 0 area (`SWAP-SPACE`).
    Old,
    /// A block without a swap area's signature.
    Other { sig: [u8; 10] },
    /// A version 1 area with a fault.
    BadArea { why: AreaFault },
    /// A version 1 area without an image.
    Swap(Area),
}

impl AreaKind {
    ghost use Rattle.std.specs.Prelude.{◌≡◌};
    ghost use Rattle.image_format.specs.AreaKind.{area_kind};

    /// Reads what a header block says. The kinds are tested in this order: an image, a version 0 area, no area, the
    /// faults of a version 1 area in the order of `AreaFault`.
    #[tactic(auto, unfolding(crate::specs::AreaKind::area_kind))]
    pub fn read(page: &Page) -> AreaKind
        ensures { result ≡ area_kind page.now }
    {
        let sig = signature(page);
        if sig == IMAGE {
            AreaKind::Image(mark_of(page))
        } else if sig == OLD {
            AreaKind::Old
        } else if sig == AREA {
            version_1(page)
        } else {
            AreaKind::Other { sig }
        }
    }
}

fn mark_of(page: &Page) -> Mark
    ensures { result ≡ mark_of page.now }
{
    Mark {
        last: page.u32_at(LAST_PAGE),
        count: page.u32_at(NR_BADPAGES),
        first: page.word(layout::IMAGE / 8),
        flags: page.u32_at(FLAGS),
        hw_sig: page.u32_at(HW_SIG),
    }
}

#[tactic(auto, unfolding(crate::specs::AreaKind::area_of))]
fn version_1(page: &Page) -> AreaKind
    ensures { result ≡ version_1_kind page.now }
{
    let version = page.u32_at(VERSION);
    let last = page.u32_at(LAST_PAGE);
    let count = page.u32_at(NR_BADPAGES);
    let why = if version != 1 {
        AreaFault::Version { version }
    } else if count > MOST_BADPAGES as u32 {
        AreaFault::BadCount { count }
    } else if last == 0 {
        AreaFault::LastZero
    } else {
        let bad = bad_pages(page, count);
        match first_outside(&bad[..count as usize], last) {
            None => return AreaKind::Swap(Area { last, count, bad }),
            Some(slot) => AreaFault::BadEntry { slot },
        }
    };
    AreaKind::BadArea { why }
}

/// Returns the first `count` bad pages that the header names, followed by zeros.
fn bad_pages(page: &Page, count: u32) -> [u32; MOST_BADPAGES]
    requires { count ≤ 630 }
    ensures { result ≡ bad_pages_of page.now count ++ replicate (630 - count) 0 }
{
    let mut bad = [0; MOST_BADPAGES];
    for i in 0..count as usize {
        bad[i] = page.u32_at(BADPAGES + 4 * i);
    }
    bad
}

fn first_outside(bad: &[u32], last: u32) -> Option<u32>
    ensures { result ≡ first_outside last bad.now }
{
    bad.iter().copied().find(|&slot| slot == 0 || slot > last)
}

/// Makes the header block of a version 1 area without an image.
#[tactic(auto, unfolding(definitions::specs::SwapHeader::area_page))]
pub fn area_page(last: u32, bad: &[u32]) -> Page
    requires { length bad.now ≤ 630 }
    ensures { result ≡ area_page last bad.now }
{
    let mut page = Page::zero();
    page.put_u32(VERSION, 1);
    page.put_u32(LAST_PAGE, last);
    page.put_u32(NR_BADPAGES, bad.len() as u32);
    put_bad_pages(&mut page, bad);
    with_signature(&page, SIG, AREA)
}

fn put_bad_pages(page: &mut Page, bad: &[u32])
    requires few { length bad.now ≤ 630 }
    requires whole { IsPage page.old }
    ensures { page.new ≡ with_bytes page.old 1536 (flat_map (little_bytes 4) bad.now) }
{
    for (i, slot) in bad.iter().enumerate() {
        page.put_u32(BADPAGES + 4 * i, *slot);
    }
}
