ghost use Rattle.std.specs.Prelude.{◌≡◌, ℕ, ◌+◌, ◌*◌, ◌<◌, ◌≤◌, not, IsTrue, ◌↔◌, List, [], ◌++◌, length, filter, IsOk};
ghost use Rattle.std.specs.Prelude.{OnOk, OnErr, Some, if◌then◌else◌, All};
ghost use Rattle.std.specs.List.{flat_map, concat, range_with_len};
ghost use Rattle.definitions.specs.Bytes.{IsPage};
ghost use Rattle.definitions.specs.Disk.{HasRisen};
ghost use Rattle.definitions.specs.Streams.{TakesAll, TakesFront};
ghost use Rattle.definitions.specs.Tables.{frame};
ghost use Rattle.definitions.specs.Zones.{numbers, top};
ghost use Rattle.plain_machine.specs.Machine.{Fits, IsHardware};
ghost use Rattle.dump_file.specs.ReadBack.{ReadsBack};
ghost use Rattle.dump_file.specs.Written.{dump_bytes, extent_bytes, front_bytes, head_bytes, is_plain, layout_bytes};
ghost use Rattle.dump_file.specs.Written.{map_bytes, nonzero, record_bytes, records_bytes, zone_bytes};

use crate::head::{Head, add_number};
use crate::put::put_number;
use byte_streams::{Sink, put_all};
use frame_arena::Frames;
use frame_sets::Zones;
use machine::Hardware;
use page_core::Failed;

/// Writes the dump of a machine: its hardware without its regions, and a record for each valid page frame that isn't
/// all zero. Nothing is flushed.
#[tactic(auto, unfolding(crate::specs::Written::dump_bytes))]
pub fn write_dump<K: Sink>(sink: &mut K, hw: &Hardware, frames: &Frames) -> Result<(), Failed>
    requires frames { length frames.now ≡ top hw.now.zones }
    ensures whole { OnOk result (TakesAll (dump_bytes hw.now frames.now) (K.taken sink.old) (K.taken sink.new)) }
    ensures front { TakesFront (dump_bytes hw.now frames.now) (K.taken sink.old) (K.taken sink.new) }

    // What an empty sink takes is a dump of this machine, if the machine has no regions and its tables are well formed.
    ensures reads_back { (bytes : List ℕ) → hw.now.regions ≡ [] → Fits hw.now frames.now → K.taken sink.old ≡ Some [] →
        K.taken sink.new ≡ Some bytes → IsOk result → ReadsBack hw.now frames.now bytes }

    ensures counted { K.faults sink.old ≤ K.faults sink.new }
    ensures cause { OnErr result (HasRisen (K.faults sink.old) (K.faults sink.new)) }
{
    let head = head_of(hw, frames);
    put_all(sink, head.as_bytes())?;
    put_records(sink, frames, hw.zones())
}

/// What stands before the records.
#[tactic(auto, unfolding(crate::specs::Written::head_bytes))]
fn head_of(hw: &Hardware, frames: &Frames) -> Head
    requires { length frames.now ≡ top hw.now.zones }
    ensures { result ≡ head_bytes hw.now frames.now }
{
    let mut head = Head::new();
    put_front(&mut head, hw);
    put_layout(&mut head, hw);
    add_number(&mut head, count_records(frames, hw.zones()));
    head
}

/// Adds the mark of the version, seven numbers, the names and two zero bytes.
#[tactic(auto, unfolding(crate::specs::Written::front_bytes))]
fn put_front(head: &mut Head, hw: &Hardware)
    requires { head.old ≡ [] }
    ensures bytes { head.new ≡ front_bytes hw.now }
    ensures len { length head.new ≡ 424 }
{
    let ident = hw.ident();
    head.put(if is_plain(hw) {
        b"SWSUDMP1"
    } else {
        b"SWSUDMP2"
    });
    add_number(head, ident.version_code);
    add_number(head, hw.slots());
    add_number(head, hw.frame_table());
    add_number(head, hw.slot_table());
    add_number(head, hw.hw_sig());
    add_number(head, count_zones(hw.zones()));
    put_names(head, &ident.names);
    head.put(&[0, 0]);
}

/// Returns whether each slot lies on the block of its number.
fn is_plain(hw: &Hardware) -> bool
    ensures { result ≡ is_plain hw.now }
{
    match hw.extents().extents() {
        [extent] => *extent == (0, hw.slots(), 0),
        _ => false,
    }
}

/// Returns how many zones there are.
fn count_zones(zones: &Zones) -> u32
    ensures { result ≡ length zones.now }
{
    zones.as_slice().len() as u32
}

/// Adds the names of an identity.
fn put_names(head: &mut Head, names: &[[u8; 65]])
    requires six { length names.now ≡ 6 }
    requires room { length head.old + 390 ≤ 1332 }
    ensures bytes { head.new ≡ head.old ++ concat names.now }
    ensures len { length head.new ≡ length head.old + 390 }
{
    for name in names {
        head.put(name);
    }
}

/// Adds the zones and, in version 2, the file map.
#[tactic(auto, unfolding(crate::specs::Written::layout_bytes))]
fn put_layout(head: &mut Head, hw: &Hardware)
    requires { length head.old ≡ 424 }
    ensures bytes { head.new ≡ head.old ++ layout_bytes hw.now }
    ensures len { length head.new ≤ 1328 }
{
    put_zones(head, hw.zones());
    if !is_plain(hw) {
        put_map(head, hw.extents().extents());
    }
}

/// Adds the zones, each its first number and its count.
fn put_zones(head: &mut Head, zones: &Zones)
    requires { length head.old ≡ 424 }
    ensures bytes { head.new ≡ head.old ++ flat_map zone_bytes zones.now }
    ensures len { length head.new ≤ 552 }
{
    for &(start, count) in zones.as_slice() {
        add_number(head, start);
        add_number(head, count);
    }
}

/// Adds a file map: the resume offset, the number of extents, and the extents.
fn put_map(head: &mut Head, extents: &[(u32, u32, u32)])
    requires some { 1 ≤ length extents.now }
    requires few { length extents.now ≤ 64 }
    requires room { length head.old ≤ 552 }
    ensures bytes { head.new ≡ head.old ++ map_bytes extents.now }
    ensures len { length head.new ≤ 1328 }
{
    add_number(head, extents[0].2);
    add_number(head, extents.len() as u32);
    put_extents(head, extents);
}

fn put_extents(head: &mut Head, extents: &[(u32, u32, u32)])
    requires few { length extents.now ≤ 64 }
    requires room { length head.old ≤ 560 }
    ensures bytes { head.new ≡ head.old ++ flat_map extent_bytes extents.now }
    ensures len { length head.new ≡ length head.old + 12 * length extents.now }
{
    for &(start, length, block) in extents {
        add_number(head, start);
        add_number(head, length);
        add_number(head, block);
    }
}

/// Returns how many page frames have a record.
fn count_records(frames: &Frames, zones: &Zones) -> u32
    requires { length frames.now ≡ top zones.now }
    ensures { result ≡ length (nonzero frames.now (numbers zones.now)) }
{
    let mut total = 0;
    for &(start, count) in zones.as_slice() {
        total += count_records_of_zone(frames, start, count);
    }
    total
}

/// Returns how many page frames of a zone have a record.
fn count_records_of_zone(frames: &Frames, start: u32, count: u32) -> u32
    requires within { start + count ≤ length frames.now }
    requires few { start + count ≤ 65536 }
    ensures counted { result ≡ length (nonzero frames.now (range_with_len start count)) }
    ensures at_most { result ≤ count }
{
    let mut total = 0;
    for i in 0..count {
        if !frames.is_zero(start + i) {
            total += 1;
        }
    }
    total
}

/// Writes the records, in ascending order of their page frames.
fn put_records<K: Sink>(sink: &mut K, frames: &Frames, zones: &Zones) -> Result<(), Failed>
    requires { length frames.now ≡ top zones.now }
    ensures whole { OnOk result (TakesAll (records_bytes frames.now (numbers zones.now)) (K.taken sink.old)
        (K.taken sink.new)) }
    ensures front { TakesFront (records_bytes frames.now (numbers zones.now)) (K.taken sink.old) (K.taken sink.new) }
    ensures counted { K.faults sink.old ≤ K.faults sink.new }
    ensures cause { OnErr result (HasRisen (K.faults sink.old) (K.faults sink.new)) }
{
    for &(start, count) in zones.as_slice() {
        put_records_of_zone(sink, frames, start, count)?;
    }
    Ok(())
}

/// Writes the records of a zone's page frames.
fn put_records_of_zone<K: Sink>(
    sink: &mut K,
    frames: &Frames,
    start: u32,
    count: u32,
) -> Result<(), Failed>
    requires within { start + count ≤ length frames.now }
    requires few { start + count ≤ 65536 }
    ensures whole { OnOk result (TakesAll (records_bytes frames.now (range_with_len start count)) (K.taken sink.old)
        (K.taken sink.new)) }
    ensures front { TakesFront (records_bytes frames.now (range_with_len start count)) (K.taken sink.old)
        (K.taken sink.new) }
    ensures counted { K.faults sink.old ≤ K.faults sink.new }
    ensures cause { OnErr result (HasRisen (K.faults sink.old) (K.faults sink.new)) }
{
    for i in 0..count {
        if !frames.is_zero(start + i) {
            put_record(sink, frames, start + i)?;
        }
    }
    Ok(())
}

/// Writes a record: a page frame's number and its content.
fn put_record<K: Sink>(sink: &mut K, frames: &Frames, p: u32) -> Result<(), Failed>
    requires { p < length frames.now }
    ensures whole { OnOk result (TakesAll (record_bytes frames.now p) (K.taken sink.old) (K.taken sink.new)) }
    ensures front { TakesFront (record_bytes frames.now p) (K.taken sink.old) (K.taken sink.new) }
    ensures counted { K.faults sink.old ≤ K.faults sink.new }
    ensures cause { OnErr result (HasRisen (K.faults sink.old) (K.faults sink.new)) }
{
    put_number(sink, p)?;
    put_all(sink, frames.page(p).as_bytes())
}
