ghost use Rattle.std.specs.Prelude.{◌≡◌, ◌≤◌, ◌^◌, All};
ghost use Rattle.core_machine.specs.Made.{IsPlain, frames_in, heading_of};
ghost use Rattle.core_machine.specs.Segments.{address_end};

use crate::segments::Segment;
use definitions::Ident;
use image_format::Area;
use image_machine::{Heading, Layout};

/// The most bad pages that a header has.
const MOST_BADPAGES: usize = 630;

/// The fewest slots that a machine has.
const LEAST_SLOTS: u32 = 2;

/// Returns the heading of a machine with `frames` page frames, and `slots` slots or as many as page frames.
pub(crate) fn heading_of(ident: Ident, frames: u32, slots: Option<u32>) -> Heading
    ensures { result ≡ heading_of ident frames slots }
{
    let slots = slots.unwrap_or(frames).max(LEAST_SLOTS);
    Heading {
        ident,
        physpages: u64::from(frames),
        area: Area {
            last: slots - 1,
            count: 0,
            bad: [0; MOST_BADPAGES],
        },
        hw_sig: 0,
    }
}

/// Returns the page frame after the last one of ascending segments.
pub(crate) fn frames_in(segments: &[Segment]) -> u32
    requires { All (λ s. address_end s ≤ 2 ^ 28) segments.now }
    ensures { result ≡ frames_in segments.now }
{
    let mut frames = 0;
    for segment in segments {
        frames = segment.frame_end();
    }
    frames
}

/// Returns the layout of one zone from page frame 0 on, and one extent from block 0 on, which has the header.
pub(crate) fn plain_layout() -> Layout<'static>
    ensures { IsPlain result }
{
    Layout {
        zones: &[],
        extents: &[],
        offset: 0,
    }
}
