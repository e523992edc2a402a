//! Parts of an image that are accepted if they have no finding.
ghost use Rattle.std.specs.Prelude.{◌≡◌, ◌∷◌, List, true};
ghost use Rattle.image_walk.specs.Names.{Name};
ghost use Rattle.image_walk.specs.Walking.{IsPlaced, name_of};
ghost use Rattle.image_check.specs.Header.{header_findings};
ghost use Rattle.image_check.specs.Image.{name_findings};
ghost use Rattle.image_check.specs.Info.{info_findings};
ghost use Rattle.image_check.specs.Knows.{Knows};
ghost use Rattle.image_pages.specs.Accepted.{Accepts};

use crate::tally::Tally;
use image_check::{Progress, Report, check_header, check_info, check_name};
use image_walk::Visit;
use page_core::{Format, Page};

/// Returns whether nothing is wrong with a header block whose mark has these flags, and reports what is.
pub fn accept_header<R: Report>(
    report: &mut R,
    blocks: u32,
    header: u32,
    flags: u32,
    page: &Page,
) -> bool
    ensures { Accepts (header_findings blocks header flags page.now)
        (R.told report.old) (R.told report.new) result }
{
    let mut tally = Tally { count: 0 };
    check_header(&mut tally, blocks, header, flags, page);
    if tally.count == 0 {
        return true;
    }
    check_header(report, blocks, header, flags, page);
    false
}

/// Returns whether nothing is wrong with an info page, and reports what is.
pub fn accept_info<R: Report>(report: &mut R, format: Format, page: &Page) -> bool
    ensures { Accepts (info_findings format page.now) (R.told report.old) (R.told report.new) result }
{
    let mut tally = Tally { count: 0 };
    check_info(&mut tally, format, page);
    if tally.count == 0 {
        return true;
    }
    check_info(report, format, page);
    false
}

/// Returns whether nothing is wrong with a name that follows those that led to `progress`, and reports what is.
pub(crate) fn accept_name<R: Report>(
    report: &mut R,
    format: Format,
    progress: &mut Progress,
    visit: &Visit,
    page: &Page,
) -> bool
    ensures told { (h : List Name) → IsPlaced h visit.now → Knows progress.old h →
        Accepts (name_findings format h (name_of visit.now page.now)) (R.told report.old) (R.told report.new) result }
    ensures known { (h : List Name) → IsPlaced h visit.now → Knows progress.old h → result ≡ true →
        Knows progress.new (name_of visit.now page.now ∷ h) }
{
    let mut tally = Tally { count: 0 };
    let mut after = *progress;
    check_name(&mut tally, format, &mut after, visit, page);
    if tally.count > 0 {
        check_name(report, format, progress, visit, page);
        return false;
    }
    *progress = after;
    true
}
