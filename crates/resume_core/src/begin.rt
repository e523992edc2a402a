ghost use Rattle.std.specs.Prelude.{◌≡◌, ◌≤◌, ◌<◌, ◌&&◌, ℕ, not, [], length, take, filter, nat_le, Contains};
ghost use Rattle.definitions.specs.Bytes.{filled_page};
ghost use Rattle.definitions.specs.Tables.{frame};
ghost use Rattle.definitions.specs.Zones.{top};
ghost use Rattle.frame_sets.specs.FrameSet.{IsFrameSet};
ghost use Rattle.plain_machine.specs.Machine.{IsHardware, unused};
ghost use Rattle.plain_machine.specs.Loader.{left_free, loader_frame, is_in_ranges, is_in_regions};
ghost use Rattle.plain_machine.specs.declared.event.Loader.TheVariants as loader;
ghost use Rattle.protocol_laws.specs.Rows.{TellsNewFault};

use crate::Load;
use crate::load::Stage;
use frame_arena::Frames;
use frame_sets::Bitmap;
use frame_table::{View, count_free, pick};
use machine::{Hardware, Machine};
use plain_machine::{IdentCheck, Loader, Ranges, Reply};

/// The value of each byte that a scripted loader fills memory with (own).
const FILL: u8 = 165;

// The begin of a resume.
impl Load {
    ghost use Rattle.plain_machine.specs.declared.reply.Reply.TheVariants as reply;
    ghost use Rattle.swap_slots.specs.Runs.{SlotRuns};
    ghost use Rattle.resume_core.specs.Loading.{activity_of, activity_told};
    ghost use Rattle.resume_core.specs.Ready.{CanBegin, CanStep};
    ghost use Rattle.resume_core.specs.Row.{BeginsRow};

    /// Begins a resume on a machine that is off. A scripted loader fills each page frame that isn't free to it; for a
    /// dump's loader, memory stays as it is.
    pub fn begin(
        &mut self,
        machine: &Machine,
        frames: &mut Frames,
        loader: Loader,
        check: IdentCheck,
    ) -> Reply
        requires ready { CanBegin machine.now frames.old self.old }
        ensures row { BeginsRow machine.now frames.old frames.new self.new loader check result }
        ensures activity { activity_of self.new ≡ activity_told loader result }
        ensures loader { self.new.loader ≡ loader }
        ensures ready { (runs : SlotRuns) → machine.now.hw.slots ≤ runs.room →
            CanStep machine.now frames.new runs self.new }
        ensures begun { result ≡ reply.Loading 0 }
        ensures no_fault { TellsNewFault result → ⊥ }
    {
        machine.blocks_fit();
        // `origs` isn't used until the first number page is read, so it can hold the page frames free to the loader
        // here.
        make_loader(frames, &mut self.origs, &machine.hw, &loader);
        self.waiting.begin(&self.origs);
        self.origs.clear_all();
        self.zeros.clear_all();
        self.loader = loader;
        self.check = check;
        self.stage = Stage::Sync;
        Reply::Loading { k: 0 }
    }
}

/// Sets up the loader's memory and fills `set` with the frames it leaves free.
fn make_loader(frames: &mut Frames, set: &mut Bitmap, hw: &Hardware, loader: &Loader)
    requires size { length frames.old ≡ top hw.now.zones }
    requires zones { set.old.zones ≡ hw.now.zones }
    ensures loader { (p : ℕ) → p < length frames.old → (Contains (left_free hw.now frames.old loader.now) p → ⊥) →
        frame frames.new p ≡ loader_frame frames.old loader.now p }
    ensures size { length frames.new ≡ length frames.old }
    ensures set { set.new ≡ record set.old { members = left_free hw.now frames.old loader.now } }
    ensures hardware { IsHardware hw.now }
{
    match loader {
        Loader::Ranges(ranges) => {
            mark_left_free(set, hw, ranges);
            fill_apart(frames, set);
        }
        Loader::Table => mark_unused(set, frames, hw),
    }
}

/// Sets `set` to the page frames that are free according to the frame table.
fn mark_unused(set: &mut Bitmap, frames: &Frames, hw: &Hardware)
    requires size { length frames.now ≡ top hw.now.zones }
    requires zones { set.old.zones ≡ hw.now.zones }
    ensures set { set.new ≡ record set.old { members = unused hw.now frames.now } }
    ensures hardware { IsHardware hw.now }
{
    let view = View {
        frames,
        zones: hw.zones(),
        table: hw.frame_table(),
    };
    pick(&view, count_free(&view), set);
}

/// Sets `set` to the page frames that are free to a scripted loader.
fn mark_left_free(set: &mut Bitmap, hw: &Hardware, ranges: &Ranges)
    requires { set.old.zones ≡ hw.now.zones }
    ensures set { set.new ≡ record set.old { members = left_free hw.now [] (loader.Ranges ranges.now) } }
    ensures hardware { IsHardware hw.now }
{
    set.set_all();
    clear_ranges(set, ranges);
    clear_regions(set, hw);
}

/// Removes the page frames of the ranges from the set.
fn clear_ranges(set: &mut Bitmap, ranges: &Ranges)
    requires { IsFrameSet set.old }
    ensures { set.new ≡ record set.old { members = filter (λ p. not (is_in_ranges ranges.now p)) set.old.members } }
{
    for &(first, last) in listed(ranges) {
        clear_between(set, first, last);
    }
}

/// Returns the ranges in use: the first `count` of the list.
fn listed(ranges: &Ranges) -> &[(u32, u32)]
    ensures { result.now ≡ take ranges.now.count ranges.now.list }
{
    let all = ranges.list.as_slice();
    all.get(..ranges.count as usize).unwrap_or(all)
}

/// Removes the page frames of regions with flags from the set.
fn clear_regions(set: &mut Bitmap, hw: &Hardware)
    requires { IsFrameSet set.old }
    ensures set { set.new ≡ record set.old { members = filter (λ p. not (is_in_regions hw.now p)) set.old.members } }
    ensures hardware { IsHardware hw.now }
{
    for &(start, count, flags) in hw.regions() {
        if flags != 0 {
            clear_between(set, start, start + count - 1);
        }
    }
}

/// Removes the page frames from `first` to `last`, both included, from the set.
fn clear_between(set: &mut Bitmap, first: u32, last: u32)
    requires { IsFrameSet set.old }
    ensures { set.new ≡ record set.old {
      members = filter (λ p. not (nat_le first p
          && nat_le p last)) set.old.members;
    } }
{
    let mut from = first;
    while let Some(p) = set.first_from(from) {
        if p > last {
            break;
        }
        set.clear(p);
        from = p + 1;
    }
}

/// Fills each page frame that isn't in the set.
fn fill_apart(frames: &mut Frames, set: &Bitmap)
    ensures filled { (p : ℕ) → p < length frames.old → (Contains set.now.members p → ⊥) →
        frame frames.new p ≡ filled_page 165 }
    ensures size { length frames.new ≡ length frames.old }
{
    for p in 0..frames.len() {
        if !set.has(p) {
            frames.fill(p, FILL);
        }
    }
}
