ghost use Rattle.std.specs.Prelude.{◌≡◌, ◌≤◌, ◌+◌, ℕ, List, [], ◌∷◌, ◌++◌, None, Contains, filter, length};
ghost use Rattle.std.specs.Prelude.{IfErr, IfOk, OnOk};
ghost use Rattle.definitions.specs.Disk.{HasRisen};
ghost use Rattle.definitions.specs.Zones.{numbers};
ghost use Rattle.plain_machine.specs.Image.{is_zeros};
ghost use Rattle.core_machine.specs.Faults.{wanted};
ghost use Rattle.core_machine.specs.Pages.{pages_in, places_end};
ghost use Rattle.core_machine.specs.Reading.{IsReadTo};
ghost use Rattle.core_machine.specs.Segments.{first_frame, frame_end, place_after, place_fault, segments_fault};
ghost use Rattle.core_machine.specs.Segments.{size_fault};
ghost use Rattle.image_machine.specs.Filled.{IsFilled};
ghost use Rattle.core_machine.specs.Laid.{IsLaid, IsLaidOver, IsSamePlan, LiesBelow};
ghost use Rattle.core_machine.specs.Made.{frames_in, holds_bytes, saved_of};
ghost use Rattle.core_machine.specs.Stops.{StopsIn};
ghost use Rattle.core_machine.specs.declared.stop.Stop.TheVariants as stop;

use crate::segments::{Segment, read_page};
use crate::stop::Stop;
use byte_streams::Source;
use image_machine::FilledPlan;
use page_core::Page;

/// Reads the pages of segments whose bytes lie from a place on, and adds those that aren't all zero to a plan that has
/// none.
pub(crate) fn lay_all<S: Source>(
    source: &mut S,
    place: u64,
    segments: &[Segment],
    filled: &mut FilledPlan<'_>,
) -> Result<(), Stop>
    requires follows { segments_fault 0 place segments.now ≡ None }
    requires filled { IsFilled filled.old [] }
    requires zone { filled.old.plan.zones ≡ (0, frames_in segments.now) ∷ [] }
    ensures stopped { IfErr result (λ why. (bytes : List ℕ) → IsReadTo bytes place (S.remaining source.old) →
        StopsIn (wanted bytes (places_end place segments.now)) why) }
    ensures laid { OnOk result (IsLaid filled.new (λ saved. (bytes : List ℕ) →
        IsReadTo bytes place (S.remaining source.old) → saved ≡ saved_of bytes segments.now)) }
    ensures whole { OnOk result ((bytes : List ℕ) → IsReadTo bytes place (S.remaining source.old) →
        places_end place segments.now ≤ length bytes) }
    ensures same { IsSamePlan filled.old filled.new }
    ensures counted { S.faults source.old ≤ S.faults source.new }
    ensures cause { IfErr result (λ why. why ≡ stop.Source → HasRisen (S.faults source.old) (S.faults source.new)) }
{
    let mut place = place;
    for segment in segments {
        place = lay_segment(source, place, segment, filled)?;
    }
    Ok(())
}

/// Reads the pages of a segment, and adds those that aren't all zero to a plan. Returns the place up to which the file
/// was then read.
fn lay_segment<S: Source>(
    source: &mut S,
    place: u64,
    segment: &Segment,
    filled: &mut FilledPlan<'_>,
) -> Result<u64, Stop>
    requires size { size_fault segment.now ≡ None }
    requires lies { place_fault place segment.now ≡ None }
    requires filled { (saved : List (ℕ × List ℕ)) × LiesBelow filled.old saved (first_frame segment.now) }
    requires zone { (n : ℕ) × (filled.old.plan.zones ≡ (0, n) ∷ []) × (frame_end segment.now ≤ n) }
    ensures stopped { IfErr result (λ why. (bytes : List ℕ) → IsReadTo bytes place (S.remaining source.old) →
        StopsIn (wanted bytes (place_after place segment.now)) why) }
    ensures laid { OnOk result ((saved : List (ℕ × List ℕ)) →
        LiesBelow filled.old saved (first_frame segment.now) →
        IsLaidOver filled.new saved (frame_end segment.now) (λ more. (bytes : List ℕ) →
        IsReadTo bytes place (S.remaining source.old) → more ≡ filter holds_bytes (pages_in bytes segment.now))) }
    ensures place { IfOk result (λ now. now ≡ place_after place segment.now) }
    ensures left { IfOk result (λ now. (bytes : List ℕ) → IsReadTo bytes place (S.remaining source.old) →
        IsReadTo bytes now (S.remaining source.new)) }
    ensures same { IsSamePlan filled.old filled.new }
    ensures counted { S.faults source.old ≤ S.faults source.new }
    ensures cause { IfErr result (λ why. why ≡ stop.Source → HasRisen (S.faults source.old) (S.faults source.new)) }
{
    let first = segment.first_frame();
    let end = segment.frame_end();
    let mut place = place;
    let mut page = Page::zero();
    for frame in first..end {
        place = read_page(source, place, segment, frame, &mut page)?;
        lay_page(frame, &page, filled);
    }
    Ok(place)
}

/// Adds a page to a plan, unless it is all zero.
fn lay_page(frame: u32, page: &Page, filled: &mut FilledPlan<'_>)
    requires filled { (saved : List (ℕ × List ℕ)) × IsFilled filled.old saved }
    requires valid { Contains (numbers filled.old.plan.zones) frame }
    ensures laid { (saved : List (ℕ × List ℕ)) → LiesBelow filled.old saved frame →
        LiesBelow filled.new (saved ++ filter holds_bytes ((frame, page.now) ∷ [])) (frame + 1) }
    ensures same { IsSamePlan filled.old filled.new }
{
    if is_zeros(page) {
        return;
    }
    add_page(frame, page, filled);
}

/// Adds a page to a plan that has a place for it.
fn add_page(frame: u32, page: &Page, filled: &mut FilledPlan<'_>)
    requires filled { (saved : List (ℕ × List ℕ)) × IsFilled filled.old saved }
    requires valid { Contains (numbers filled.old.plan.zones) frame }
    ensures laid { (saved : List (ℕ × List ℕ)) → LiesBelow filled.old saved frame →
        LiesBelow filled.new (saved ++ (frame, page.now) ∷ []) (frame + 1) }
    ensures same { IsSamePlan filled.old filled.new }
{
    match filled.add(u64::from(frame), page) {
        Ok(()) => {}
        Err(_) => unreachable!(),
    }
}

/// Returns whether each byte of a page is zero.
fn is_zeros(page: &Page) -> bool
    ensures { result ≡ is_zeros page.now }
{
    page.as_bytes() == Page::zero().as_bytes()
}
