//! What an overlay keeps of a block.
ghost use Rattle.std.specs.Prelude.{◌↔◌, IsTrue, MatchOption};
ghost use Rattle.overlay_disk.specs.Overlaid.{HasRoom, Keeps, KeepsNone};

use crate::kept::Kept;
use page_core::Page;

/// Returns whether block b may be written.
pub(crate) fn has_room(kept: &Option<Kept>, b: u32) -> bool
    ensures { IsTrue result ↔ HasRoom kept.now b }
{
    match kept {
        Some(kept) => kept.block == b,
        None => true,
    }
}

/// Returns the page that is kept of block b.
pub(crate) fn page_of(kept: &Option<Kept>, b: u32) -> Option<&Page>
    ensures { MatchOption result (KeepsNone kept.now b) (λ page. Keeps kept.now b page.now) }
{
    match kept {
        Some(kept) => {
            if kept.block == b {
                Some(&kept.page)
            } else {
                None
            }
        }
        None => None,
    }
}
