ghost use Rattle.std.specs.Prelude.{◌≡◌, ◌≤◌, length};
ghost use Rattle.dump_tools.specs.Texts.{image_key, line_text, needed_key};

use crate::facts::Fact;
use byte_streams::{Line, put_name, put_numbers};
use page_core::Format;

/// Returns the line of a fact.
pub(crate) fn line_of(fact: &Fact) -> Line
    ensures { result ≡ line_text fact.now }
{
    let mut line = Line::new();
    match *fact {
        Fact::Slots(n) => put_numbers(&mut line, b"slots", &[u64::from(n)]),
        Fact::FrameTable(p) => put_numbers(&mut line, b"frame_table", &[u64::from(p)]),
        Fact::SlotTable(p) => put_numbers(&mut line, b"slot_table", &[u64::from(p)]),
        Fact::Zone(start, count) => put_numbers(
            &mut line,
            b"zone",
            &[u64::from(start), u64::from(count)],
        ),
        Fact::Region(start, count, flags) => put_numbers(
            &mut line,
            b"region",
            &[u64::from(start), u64::from(count), u64::from(flags)],
        ),
        Fact::Extent(start, len, block) => put_numbers(
            &mut line,
            b"extent",
            &[u64::from(start), u64::from(len), u64::from(block)],
        ),
        Fact::Signature(n) => put_numbers(&mut line, b"hw_sig", &[u64::from(n)]),
        Fact::VersionCode(n) => put_numbers(&mut line, b"version_code", &[u64::from(n)]),
        Fact::Name(name, bytes) => put_name(&mut line, name, &bytes),
        Fact::SaveableFrames(n) => put_numbers(&mut line, b"frames_saveable", &[u64::from(n)]),
        Fact::FreeFrames(n) => put_numbers(&mut line, b"frames_free", &[u64::from(n)]),
        Fact::NeededFrames(n) => put_numbers(&mut line, b"frames_needed", &[u64::from(n)]),
        Fact::OwnedFrames(task, n) => put_numbers(
            &mut line,
            b"frames_owned",
            &[u64::from(task), u64::from(n)],
        ),
        Fact::FreeSlots(n) => put_numbers(&mut line, b"slots_free", &[u64::from(n)]),
        Fact::BadSlots(n) => put_numbers(&mut line, b"slots_bad", &[u64::from(n)]),
        Fact::OwnedSlots(task, n) => put_numbers(
            &mut line,
            b"slots_owned",
            &[u64::from(task), u64::from(n)],
        ),
        Fact::Image(format, n, d, pages) => put_numbers(
            &mut line,
            image_key(format),
            &[u64::from(n), u64::from(d), u64::from(pages)],
        ),
        Fact::NeededSlots(format, n) => put_numbers(&mut line, needed_key(format), &[u64::from(n)]),
    }
    line.put(b"\n");
    line
}

fn image_key(format: Format) -> &'static [u8]
    ensures text { result.now ≡ image_key format }
    ensures short { length result.now ≤ 18 }
{
    match format {
        Format::Plain => b"image_plain",
        Format::SkipZeros => b"image_zeros",
    }
}

fn needed_key(format: Format) -> &'static [u8]
    ensures text { result.now ≡ needed_key format }
    ensures short { length result.now ≤ 18 }
{
    match format {
        Format::Plain => b"slots_needed_plain",
        Format::SkipZeros => b"slots_needed_zeros",
    }
}
