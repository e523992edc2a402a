//! The first difference of two dumps: in their hardware, in which page frames are saveable, or in the page of a
//! saveable page frame.

mod hardware;

ghost use Rattle.std.specs.Prelude.{◌≡◌, ◌<◌, ◌↔◌, length, IsNone, IfSome};
ghost use Rattle.definitions.specs.Tables.{HasTable};
ghost use Rattle.definitions.specs.Zones.{top};
ghost use Rattle.definitions.specs.ZoneFacts.{AreZones};
ghost use Rattle.dump_tools.specs.Differences.{AgreeAt, AgreeEverywhere, AreSame, IsDifferenceAt, IsFirst};

use frame_table::{View, saveable};
use hardware::is_same;
use machine::Dump;

/// The first difference of two dumps.
#[derive(Clone, Copy)]
pub enum Difference {
    Hardware,
    /// This page frame is saveable in only one of them.
    Saveable(u32),
    /// This page frame is saveable in both, with different pages.
    Page(u32),
}

/// Returns the first difference of two dumps: in their hardware, or else at the lowest page frame that tells them
/// apart. The contents of a page frame that isn't saveable don't count.
pub fn first_difference(first: &Dump, second: &Dump) -> Option<Difference>
    requires first { length first.now.frames ≡ top first.now.hw.zones }
    requires second { length second.now.frames ≡ top second.now.hw.zones }
    ensures none { IsNone result ↔ AreSame first.now second.now }
    ensures difference { IfSome result (IsFirst first.now second.now) }
{
    if is_same(&first.hw, &second.hw) {
        first_in_frames(first, second)
    } else {
        Some(Difference::Hardware)
    }
}

/// Returns the lowest page frame that tells two dumps of the same hardware apart.
fn first_in_frames(first: &Dump, second: &Dump) -> Option<Difference>
    requires hardware { second.now.hw ≡ first.now.hw }
    requires first { length first.now.frames ≡ top first.now.hw.zones }
    requires second { length second.now.frames ≡ top second.now.hw.zones }
    ensures none { IsNone result → AgreeEverywhere first.now second.now }
    ensures difference { IfSome result (IsFirst first.now second.now) }
    ensures zones { AreZones first.now.hw.zones }
{
    let zones = first.hw.zones();
    let mut from = 0;
    while let Some(p) = zones.next(from) {
        if let Some(difference) = difference_at(first, second, p) {
            return Some(difference);
        }
        from = p + 1;
    }
    None
}

/// Returns what tells two dumps apart at a page frame.
fn difference_at(first: &Dump, second: &Dump, p: u32) -> Option<Difference>
    requires first_size { length first.now.frames ≡ top first.now.hw.zones }
    requires second_size { length second.now.frames ≡ top second.now.hw.zones }
    requires first { p < length first.now.frames }
    requires second { p < length second.now.frames }
    ensures none { IsNone result → AgreeAt first.now second.now p }
    ensures difference { IfSome result (IsDifferenceAt first.now second.now p) }
{
    let is_saved = saveable(&view_of(first), p);
    if is_saved != saveable(&view_of(second), p) {
        return Some(Difference::Saveable(p));
    }
    if is_saved && first.frames.page(p).as_bytes() != second.frames.page(p).as_bytes() {
        return Some(Difference::Page(p));
    }
    None
}

/// Returns the view that says which page frames of a dump are saveable.
fn view_of<'a>(dump: &'a Dump) -> View<'a>
    requires { length dump.now.frames ≡ top dump.now.hw.zones }
    ensures frames { result.frames.now ≡ dump.now.frames }
    ensures zones { result.zones.now ≡ dump.now.hw.zones }
    ensures table { result.table ≡ dump.now.hw.frame_table }
    ensures has_table { HasTable result.frames.now result.table (top result.zones.now) }
{
    View {
        frames: &dump.frames,
        zones: dump.hw.zones(),
        table: dump.hw.frame_table(),
    }
}
