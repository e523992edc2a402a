//! The header block of an area that is marked as an image.
ghost use Rattle.std.specs.Prelude.{◌≡◌};
ghost use Rattle.definitions.specs.SwapHeader.{taken_back};
ghost use Rattle.image_format.specs.AreaKind.{area_kind};
ghost use Rattle.image_check.specs.Header.{any_block, area_fault, compressed_fault, header_findings, is_compressed};
ghost use Rattle.image_check.specs.Header.{limits_of};
ghost use Rattle.image_check.specs.Told.{Tells};

use crate::report::tell_any;
use crate::{Finding, Report};
use image_format::{Area, AreaFault, AreaKind, MOST_BADPAGES, SF_NOCOMPRESS_MODE, take_back};
use image_walk::Limits;
use page_core::Page;

/// Reports what is wrong with a header block whose mark has these flags.
pub fn check_header<R: Report>(report: &mut R, blocks: u32, header: u32, flags: u32, page: &Page)
    ensures { Tells (header_findings blocks header flags page.now) (R.told report.old) (R.told report.new) }
{
    tell_any(
        report,
        area_fault(blocks, header, AreaKind::read(&take_back(page))),
    );
    tell_any(report, compressed_fault(flags));
}

/// Returns what is wrong with the area that the header describes once its mark is taken back.
fn area_fault(blocks: u32, header: u32, kind: AreaKind) -> Option<Finding>
    ensures { result ≡ area_fault blocks header kind }
{
    match kind {
        AreaKind::Image(_) => Some(Finding::OriginalSignature),
        AreaKind::Old => Some(Finding::Area(AreaFault::Version { version: 0 })),
        AreaKind::Other { .. } => Some(Finding::OriginalSignature),
        AreaKind::BadArea { why } => Some(Finding::Area(why)),
        AreaKind::Swap(area) => {
            if header == 0 && blocks <= area.last {
                Some(Finding::LastPage {
                    last: area.last,
                    blocks,
                })
            } else {
                None
            }
        }
    }
}

/// Returns the blocks that the image of a header block may name.
pub fn limits_of(blocks: u32, header: u32, page: &Page) -> Limits
    ensures { result ≡ limits_of blocks header (area_kind (taken_back page.now)) }
{
    limits_by(blocks, header, AreaKind::read(&take_back(page)))
}

fn limits_by(blocks: u32, header: u32, kind: AreaKind) -> Limits
    ensures { result ≡ limits_of blocks header kind }
{
    match kind {
        AreaKind::Swap(area) => {
            if header == 0 {
                let Area { last, bad, .. } = area;
                Limits {
                    blocks,
                    header,
                    last,
                    bad,
                }
            } else {
                any_block(blocks, header)
            }
        }
        AreaKind::Image(_) => any_block(blocks, header),
        AreaKind::Old => any_block(blocks, header),
        AreaKind::Other { .. } => any_block(blocks, header),
        AreaKind::BadArea { .. } => any_block(blocks, header),
    }
}

/// Returns the limits that allow each block of the file.
pub fn any_block(blocks: u32, header: u32) -> Limits
    ensures { result ≡ any_block blocks header }
{
    Limits {
        blocks,
        header,
        last: u32::MAX,
        bad: [0; MOST_BADPAGES],
    }
}

/// Returns whether an image with these flags is compressed.
pub fn is_compressed(flags: u32) -> bool
    ensures { result ≡ is_compressed flags }
{
    flags / SF_NOCOMPRESS_MODE % 2 == 0
}

fn compressed_fault(flags: u32) -> Option<Finding>
    ensures { result ≡ compressed_fault flags }
{
    if is_compressed(flags) {
        Some(Finding::Compressed(flags))
    } else {
        None
    }
}
