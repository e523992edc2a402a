ghost use Rattle.std.specs.Prelude.{◌≡◌, ◌+◌, ◌-◌, ◌*◌, ◌^◌, ◌≤◌, ◌<◌, ℕ, List, None, length, IfErr, IfOk, OnOk};
ghost use Rattle.definitions.specs.Bytes.{bytes_at, with_bytes, zero_page};
ghost use Rattle.definitions.specs.Disk.{HasRisen};
ghost use Rattle.core_machine.specs.Faults.{wanted};
ghost use Rattle.core_machine.specs.Pages.{from_address, page_fault, page_of, page_place, reached, to_address};
ghost use Rattle.core_machine.specs.Reading.{IsReadTo, Stops};
ghost use Rattle.core_machine.specs.Segments.{address_end};
ghost use Rattle.core_machine.specs.declared.segments.fault.Stop.TheVariants as stop;

use crate::segments::fault::Stop;
use crate::segments::filling::{skip, take_exact};
use crate::segments::segment::Segment;
use byte_streams::Source;
use page_core::Page;

const PAGE: u64 = 4096;

/// Reads from a place up to the bytes of a page frame of a segment, and makes its page. Returns the place up to which
/// the file was then read.
pub fn read_page<S: Source>(
    source: &mut S,
    place: u64,
    segment: &Segment,
    frame: u32,
    page: &mut Page,
) -> Result<u64, Stop>
    requires end { address_end segment.now ≤ 2 ^ 28 }
    requires sizes { segment.now.file_size ≤ segment.now.memory_size }
    requires near { 0 < segment.now.file_size → segment.now.offset ≤ 2 ^ 48 }
    requires frame { frame < 65536 }
    requires before { from_address segment.now frame < to_address segment.now frame →
        place ≤ page_place segment.now frame }
    ensures stopped { IfErr result (λ why. (bytes : List ℕ) → IsReadTo bytes place (S.remaining source.old) →
        Stops (page_fault bytes segment.now frame) why) }
    ensures whole { OnOk result ((bytes : List ℕ) → IsReadTo bytes place (S.remaining source.old) →
        page_fault bytes segment.now frame ≡ None) }
    ensures page { OnOk result ((bytes : List ℕ) → IsReadTo bytes place (S.remaining source.old) →
        page.new ≡ page_of bytes segment.now frame) }
    ensures place { IfOk result (λ now. now ≡ reached place segment.now frame) }
    ensures left { IfOk result (λ now. (bytes : List ℕ) → IsReadTo bytes place (S.remaining source.old) →
        IsReadTo bytes now (S.remaining source.new)) }
    ensures counted { S.faults source.old ≤ S.faults source.new }
    ensures cause { IfErr result (λ why. why ≡ stop.Source → HasRisen (S.faults source.old) (S.faults source.new)) }
{
    let (from, to) = addresses(segment, frame);
    if to <= from {
        *page = Page::zero();
        return Ok(place);
    }
    let offset = segment.offset + (from - segment.address);
    skip(source, place, offset)?;
    let start = PAGE * u64::from(frame);
    let part = ((from - start) as usize, (to - start) as usize);
    read_part(source, offset, part, page)?;
    Ok(segment.offset + (to - segment.address))
}

/// Returns the addresses of a page frame that the file has bytes for: from the first one up to the second, exclusive.
fn addresses(segment: &Segment, frame: u32) -> (u64, u64)
    requires end { address_end segment.now ≤ 2 ^ 28 }
    requires sizes { segment.now.file_size ≤ segment.now.memory_size }
    requires frame { frame < 65536 }
    ensures from { result.0 ≡ from_address segment.now frame }
    ensures to { result.1 ≡ to_address segment.now frame }
{
    let start = PAGE * u64::from(frame);
    let end = segment.address + segment.file_size;
    let from = if segment.address <= start {
        start
    } else {
        segment.address
    };
    let to = if end <= start + PAGE {
        end
    } else {
        start + PAGE
    };
    (from, to)
}

/// Reads the bytes at a place into a part of a page of zeros.
fn read_part<S: Source>(
    source: &mut S,
    offset: u64,
    part: (usize, usize),
    page: &mut Page,
) -> Result<(), Stop>
    requires early { offset ≤ 2 ^ 60 }
    requires order { part.0 ≤ part.1 }
    requires within { part.1 ≤ 4096 }
    ensures stopped { IfErr result (λ why. (bytes : List ℕ) → IsReadTo bytes offset (S.remaining source.old) →
        Stops (wanted bytes (offset + (part.1 - part.0))) why) }
    ensures whole { OnOk result ((bytes : List ℕ) → IsReadTo bytes offset (S.remaining source.old) →
        offset + (part.1 - part.0) ≤ length bytes) }
    ensures page { OnOk result ((bytes : List ℕ) → IsReadTo bytes offset (S.remaining source.old) →
        page.new ≡ with_bytes zero_page part.0 (bytes_at (part.1 - part.0) bytes offset)) }
    ensures left { OnOk result ((bytes : List ℕ) → IsReadTo bytes offset (S.remaining source.old) →
        IsReadTo bytes (offset + (part.1 - part.0)) (S.remaining source.new)) }
    ensures counted { S.faults source.old ≤ S.faults source.new }
    ensures cause { IfErr result (λ why. why ≡ stop.Source → HasRisen (S.faults source.old) (S.faults source.new)) }
{
    let (from, to) = part;
    let mut bytes = [0; 4096];
    take_exact(source, &mut bytes[from..to], offset)?;
    page.copy_from_slice(&bytes);
    Ok(())
}
