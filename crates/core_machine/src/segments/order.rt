ghost use Rattle.std.specs.Prelude.{◌≡◌, ◌≤◌, ◌<◌, ◌^◌, List, [], None, IfOk, OnOk};
ghost use Rattle.core_machine.specs.Faults.{fault_in, unless};
ghost use Rattle.core_machine.specs.Heads.{kept_fault};
ghost use Rattle.core_machine.specs.Segments.{address_end, first_place, place_after, place_fault};
ghost use Rattle.core_machine.specs.Segments.{segment_fault, segments_fault, size_fault};

use crate::segments::fault::Fault;
use crate::segments::file_header::{LAST_PLACE, check};
use crate::segments::segment::Segment;

/// The number of addresses of the largest machine.
const MOST_ADDRESSES: u128 = 1 << 28;

/// Checks that there are segments, and that they follow one another, with their bytes from a place on.
pub(crate) fn check_kept(segments: &[Segment], place: u64) -> Result<(), Fault>
    ensures { fault_in result ≡ kept_fault place segments.now }
{
    check(!segments.is_empty(), Fault::NoSegment)?;
    check_segments(segments, place)
}

/// Checks that segments follow one another, with their bytes from a place on.
#[tactic(auto, unfolding(crate::specs::Segments::segments_fault))]
fn check_segments(segments: &[Segment], place: u64) -> Result<(), Fault>
    ensures { fault_in result ≡ segments_fault 0 place segments.now }
{
    let mut free = 0;
    let mut place = place;
    for segment in segments {
        check_segment(free, place, segment)?;
        free = segment.frame_end();
        place = place_after(place, segment);
    }
    Ok(())
}

/// Checks that a segment may follow: page frames are free from `free` on, and bytes were read up to `place`.
fn check_segment(free: u32, place: u64, segment: &Segment) -> Result<(), Fault>
    ensures fault { fault_in result ≡ segment_fault free place segment.now }
    ensures end { OnOk result (address_end segment.now ≤ 2 ^ 28) }
    ensures sizes { OnOk result (segment.now.file_size ≤ segment.now.memory_size) }
    ensures near { OnOk result (0 < segment.now.file_size → segment.now.offset ≤ 2 ^ 48) }
{
    check_size(segment)?;
    let address = segment.address;
    check(free <= segment.first_frame(), Fault::Overlap { address })?;
    check_place(place, segment)
}

/// Checks that a segment has no more bytes in the file than in memory, and none beyond the largest machine.
#[tactic(auto, unfolding(crate::specs::Segments::size_fault))]
fn check_size(segment: &Segment) -> Result<(), Fault>
    ensures fault { fault_in result ≡ size_fault segment.now }
    ensures end { OnOk result (address_end segment.now ≤ 2 ^ 28) }
    ensures sizes { OnOk result (segment.now.file_size ≤ segment.now.memory_size) }
{
    let address = segment.address;
    check(
        segment.file_size <= segment.memory_size,
        Fault::Sizes { address },
    )?;
    let end = segment.end();
    check(end <= 1 << 64, Fault::Wraps { address })?;
    if end > MOST_ADDRESSES {
        return Err(Fault::Limit {
            address: (end - 1) as u64,
        });
    }
    Ok(())
}

/// Checks that the bytes of a segment lie at or after a place.
#[tactic(auto, unfolding(crate::specs::Segments::place_fault))]
fn check_place(place: u64, segment: &Segment) -> Result<(), Fault>
    ensures fault { fault_in result ≡ place_fault place segment.now }
    ensures near { OnOk result (0 < segment.now.file_size → segment.now.offset ≤ 2 ^ 48) }
{
    if segment.file_size == 0 {
        return Ok(());
    }
    let offset = segment.offset;
    let address = segment.address;
    check(place <= offset, Fault::Place { address })?;
    check(offset <= LAST_PLACE, Fault::Far { place: offset })
}

/// Returns the end of the bytes that are read once a segment is.
fn place_after(place: u64, segment: &Segment) -> u64
    requires sizes { segment.now.file_size ≤ 2 ^ 28 }
    requires near { 0 < segment.now.file_size → segment.now.offset ≤ 2 ^ 48 }
    ensures { result ≡ place_after place segment.now }
{
    if segment.file_size == 0 {
        place
    } else {
        segment.offset + segment.file_size
    }
}

/// Returns the place of the first bytes of segments.
#[tactic(auto, unfolding(crate::specs::Segments::first_place))]
pub(crate) fn first_place(segments: &[Segment]) -> u64
    ensures { result ≡ first_place segments.now }
{
    for segment in segments {
        if segment.file_size != 0 {
            return segment.offset;
        }
    }
    LAST_PLACE
}
