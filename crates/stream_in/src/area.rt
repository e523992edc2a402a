ghost use Rattle.std.specs.Prelude.{◌≡◌, Some, None, MatchResult};
ghost use Rattle.plain_machine.specs.UsableArea.{kind_fault};
ghost use Rattle.image_format.specs.declared.signature.area.AreaKind.TheVariants as area_kind;
ghost use Rattle.stream_in.specs.Area.{open_fault};

use image_format::{Area, AreaKind};
use plain_machine::NoSwap;

/// The most slots that a slot table has.
pub(crate) const MOST_SLOTS: u32 = 131_072;

/// Returns the area of a header block, if it is a version 1 area whose slots are among the first `blocks` blocks of the
/// disk and fit a slot table.
pub(crate) fn usable(kind: AreaKind, blocks: u32) -> Result<Area, NoSwap>
    ensures { MatchResult result
        (λ area. (kind ≡ area_kind.Swap area) × (open_fault blocks kind ≡ None))
        (λ why. open_fault blocks kind ≡ Some why) }
{
    let area = version_1(kind)?;
    let last = area.last;
    if last >= blocks {
        return Err(NoSwap::Short { last, blocks });
    }
    if last >= MOST_SLOTS {
        return Err(NoSwap::Misfit {
            last,
            slots: MOST_SLOTS,
        });
    }
    Ok(area)
}

/// Returns the area of a header block, if it is a version 1 area without an image.
pub(crate) fn version_1(kind: AreaKind) -> Result<Area, NoSwap>
    ensures { MatchResult result
        (λ area. (kind ≡ area_kind.Swap area) × (kind_fault kind ≡ None))
        (λ why. kind_fault kind ≡ Some why) }
{
    match kind {
        AreaKind::Image(_) => Err(NoSwap::Image),
        AreaKind::Old => Err(NoSwap::Old),
        AreaKind::Other { sig } => Err(NoSwap::Signature { sig }),
        AreaKind::BadArea { why } => Err(NoSwap::from(why)),
        AreaKind::Swap(area) => Ok(area),
    }
}
