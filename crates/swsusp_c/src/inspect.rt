//! The function that C calls to read the header block of an area.
ghost use Rattle.std.specs.Prelude.{◌≡◌, ◌≢◌, ℕ};
ghost use Rattle.image_format.specs.AreaKind.{area_kind};
ghost use Rattle.swsusp_c.specs.Codes.{page_code};
ghost use Rattle.swsusp_c.specs.Facts.{facts_of, fault_of};

use crate::codes::{BAD_PAGE, OK};
use image_format::{AreaFault, AreaKind};
use page_core::Page;

/// What a header block says (`struct swsusp_header`). Numbers that a kind doesn't name are 0.
#[repr(C)]
#[derive(Clone, Copy, Debug, PartialEq, Eq)]
pub struct SwsuspHeader {
    /// The block of an image's first map.
    pub first_map: u64,
    /// `SWSUSP_IMAGE` to `SWSUSP_BAD_AREA`.
    pub kind: u32,
    /// The last slot.
    pub last_page: u32,
    /// The number of bad pages that it names.
    pub bad_pages: u32,
    pub flags: u32,
    pub hardware_signature: u32,
    /// Why a version 1 area can't be used, and the number at fault.
    pub fault: u32,
    pub number: u32,
}

/// Writes to `header` what the header block of an area says, which the caller read into `page`.
///
/// Returns `OK`; or `BAD_PAGE` if the buffer's length isn't 4096, and then nothing was changed.
#[unsafe(no_mangle)]
pub extern "C" fn swsusp_inspect(page: &[u8], header: &mut SwsuspHeader) -> u32
    ensures code { result ≡ page_code page.now }
    ensures facts { result ≡ 0 → header.new ≡ facts_of (area_kind page.now) }
    ensures refused { (result ≢ 0) → header.new ≡ header.old }
{
    if page.len() != 4096 {
        return BAD_PAGE;
    }
    let mut block = Page::zero();
    block.copy_from_slice(page);
    *header = facts_of(AreaKind::read(&block));
    OK
}

fn facts_of(kind: AreaKind) -> SwsuspHeader
    ensures { result ≡ facts_of kind }
{
    let mut facts = SwsuspHeader {
        first_map: 0,
        kind: 0,
        last_page: 0,
        bad_pages: 0,
        flags: 0,
        hardware_signature: 0,
        fault: 0,
        number: 0,
    };
    match kind {
        AreaKind::Image(mark) => {
            facts.kind = 1;
            facts.first_map = mark.first;
            facts.last_page = mark.last;
            facts.bad_pages = mark.count;
            facts.flags = mark.flags;
            facts.hardware_signature = mark.hw_sig;
        }
        AreaKind::Swap(area) => {
            facts.kind = 2;
            facts.last_page = area.last;
            facts.bad_pages = area.count;
        }
        AreaKind::Old => facts.kind = 3,
        AreaKind::Other { .. } => facts.kind = 4,
        AreaKind::BadArea { why } => {
            let (fault, number) = fault_of(why);
            facts.kind = 5;
            facts.fault = fault;
            facts.number = number;
        }
    }
    facts
}

/// Returns a fault's number, and the number at fault.
pub(crate) fn fault_of(why: AreaFault) -> (u32, u32)
    ensures { result ≡ fault_of why }
{
    match why {
        AreaFault::Version { version } => (1, version),
        AreaFault::BadCount { count } => (2, count),
        AreaFault::LastZero => (3, 0),
        AreaFault::BadEntry { slot } => (4, slot),
    }
}
