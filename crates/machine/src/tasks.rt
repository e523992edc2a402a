ghost use Rattle.std.specs.Prelude.{◌≡◌, ℕ, ◌<◌, ◌==◌, Contains, length, IsNone, IsTrue, IfSome, All};
ghost use Rattle.definitions.specs.Bytes.{IsPage};
ghost use Rattle.definitions.specs.Zones.{numbers, top};
ghost use Rattle.definitions.specs.Tables.{owner_of};
ghost use Rattle.plain_machine.specs.Faults.{TellsFailedCall};
ghost use Rattle.plain_machine.specs.Fitting.{IsFittingOp};
ghost use Rattle.plain_machine.specs.Machine.{IsTask};
ghost use Rattle.plain_machine.specs.declared.event.TaskOp.TheVariants as op;
ghost use Rattle.plain_machine.specs.Machine.{frame_entry, is_valid, IsHardware};
ghost use Rattle.machine.specs.OwnFrames.{ChangesOwn};
ghost use Rattle.machine.specs.Running.{AreReserved};
ghost use Rattle.machine.specs.TaskRow.{HasFrameRow, IsRefusal, own_refusal};
ghost use Rattle.definitions.specs.declared.counts.TheConstants.{WORDS_PER_PAGE};

use crate::{Hardware, Machine};
use bitflags::Flags;
use frame_arena::Frames;
use frame_table::{PageFlags, entry, set_entry};
use plain_machine::{Reply, TaskOp};
use swap_slots::FreeRuns;

impl Machine {
    ghost use Rattle.machine.specs.Running.{CanRun};
    ghost use Rattle.machine.specs.TaskRow.{SimulatesRequest, IsRefusal};

    /// Takes a task's request to a running machine. It is done or begun, or it is refused and nothing changes.
    pub fn task(&mut self, frames: &mut Frames, runs: &mut FreeRuns, t: u32, op: TaskOp) -> Reply
        requires task { IsTask t }
        requires op { IsFittingOp op }
        requires ready { CanRun self.old frames.old runs.old }
        ensures row { SimulatesRequest self.old frames.old t op self.new frames.new result }
        ensures ready { CanRun self.new frames.new runs.new }
        ensures no_fault { TellsFailedCall result → ⊥ }
        ensures machine { self.new ≡ record self.old { flights = self.new.flights } }
        ensures refused { IsRefusal result → (frames.new ≡ frames.old) × (self.new ≡ self.old) }
        ensures len { length frames.new ≡ length frames.old }
        ensures room { runs.new.room ≡ runs.old.room }
    {
        if self.is_in_flight(t) {
            return Reply::InFlight;
        }
        let hw = &self.hw;
        match op {
            TaskOp::Claim(p) => claim(frames, hw, t, p),
            TaskOp::Release(p) => release(frames, hw, t, p),
            TaskOp::Store(p, k, v) => store(frames, hw, t, p, k, v),
            TaskOp::Show(p, k) => show(frames, hw, t, p, k),
            TaskOp::Cache(p) => cache(frames, hw, t, p),
            TaskOp::Out(p) => self.begin_out(frames, runs, t, p),
            TaskOp::TakeIn(slot, p) => self.begin_in(frames, runs, t, slot, p),
        }
    }
}

fn claim(frames: &mut Frames, hw: &Hardware, t: u32, p: u32) -> Reply
    requires task { IsTask t }
    requires frames { length frames.old ≡ top hw.now.zones }
    requires reserved { AreReserved hw.now frames.old }
    ensures row { HasFrameRow hw.now t (op.Claim p) frames.old frames.new result }
    ensures own { ChangesOwn hw.now t frames.old frames.new }
    ensures hardware { IsHardware hw.now }
    ensures no_fault { TellsFailedCall result → ⊥ }
    ensures refused { IsRefusal result → frames.new ≡ frames.old }
    ensures len { length frames.new ≡ length frames.old }
{
    if !is_valid(hw, p) {
        return Reply::NoFrame;
    }
    if !is_free(frames, hw, p) {
        return Reply::NotFree;
    }
    frames.zero(p);
    set_entry(frames, hw.frame_table(), p, PageFlags::empty(), t as u16);
    Reply::Done
}

fn release(frames: &mut Frames, hw: &Hardware, t: u32, p: u32) -> Reply
    requires task { IsTask t }
    requires frames { length frames.old ≡ top hw.now.zones }
    requires reserved { AreReserved hw.now frames.old }
    ensures row { HasFrameRow hw.now t (op.Release p) frames.old frames.new result }
    ensures own { ChangesOwn hw.now t frames.old frames.new }
    ensures hardware { IsHardware hw.now }
    ensures no_fault { TellsFailedCall result → ⊥ }
    ensures refused { IsRefusal result → frames.new ≡ frames.old }
    ensures len { length frames.new ≡ length frames.old }
{
    if let Some(refusal) = not_own(frames, hw, t, p) {
        return refusal;
    }
    set_entry(frames, hw.frame_table(), p, PageFlags::FREE, 0);
    Reply::Done
}

fn store(frames: &mut Frames, hw: &Hardware, t: u32, p: u32, k: u32, v: u64) -> Reply
    requires task { IsTask t }
    requires word { k < WORDS_PER_PAGE }
    requires frames { length frames.old ≡ top hw.now.zones }
    requires reserved { AreReserved hw.now frames.old }
    ensures row { HasFrameRow hw.now t (op.Store p k v) frames.old frames.new result }
    ensures own { ChangesOwn hw.now t frames.old frames.new }
    ensures hardware { IsHardware hw.now }
    ensures no_fault { TellsFailedCall result → ⊥ }
    ensures refused { IsRefusal result → frames.new ≡ frames.old }
    ensures len { length frames.new ≡ length frames.old }
{
    if let Some(refusal) = not_own(frames, hw, t, p) {
        return refusal;
    }
    frames.set_word(p, k as usize, v);
    Reply::Done
}

fn show(frames: &mut Frames, hw: &Hardware, t: u32, p: u32, k: u32) -> Reply
    requires task { IsTask t }
    requires word { k < WORDS_PER_PAGE }
    requires frames { length frames.old ≡ top hw.now.zones }
    requires reserved { AreReserved hw.now frames.old }
    ensures row { HasFrameRow hw.now t (op.Show p k) frames.old frames.new result }
    ensures own { ChangesOwn hw.now t frames.old frames.new }
    ensures hardware { IsHardware hw.now }
    ensures no_fault { TellsFailedCall result → ⊥ }
    ensures refused { IsRefusal result → frames.new ≡ frames.old }
    ensures len { length frames.new ≡ length frames.old }
{
    if let Some(refusal) = not_own(frames, hw, t, p) {
        return refusal;
    }
    Reply::Word {
        value: frames.word(p, k as usize),
    }
}

fn cache(frames: &mut Frames, hw: &Hardware, t: u32, p: u32) -> Reply
    requires task { IsTask t }
    requires frames { length frames.old ≡ top hw.now.zones }
    requires reserved { AreReserved hw.now frames.old }
    ensures row { HasFrameRow hw.now t (op.Cache p) frames.old frames.new result }
    ensures own { ChangesOwn hw.now t frames.old frames.new }
    ensures hardware { IsHardware hw.now }
    ensures no_fault { TellsFailedCall result → ⊥ }
    ensures refused { IsRefusal result → frames.new ≡ frames.old }
    ensures len { length frames.new ≡ length frames.old }
{
    if let Some(refusal) = not_own(frames, hw, t, p) {
        return refusal;
    }
    set_entry(frames, hw.frame_table(), p, PageFlags::CACHE, t as u16);
    Reply::Done
}

/// Returns whether a page frame is free.
fn is_free(frames: &Frames, hw: &Hardware, p: u32) -> bool
    requires valid { Contains (numbers hw.now.zones) p }
    requires frames { length frames.now ≡ top hw.now.zones }
    ensures test { result ≡ (frame_entry hw.now frames.now p == 1) }
    ensures pages { All IsPage frames.now }
{
    frames.are_pages();
    entry(frames, hw.frame_table(), p) == (PageFlags::FREE, 0)
}

/// Returns why a page frame isn't the task's, if it isn't: it isn't valid, or the task doesn't own it.
pub(crate) fn not_own(frames: &Frames, hw: &Hardware, t: u32, p: u32) -> Option<Reply>
    requires frames { length frames.now ≡ top hw.now.zones }
    ensures refusal { result ≡ own_refusal hw.now frames.now t p }
    ensures no_fault { IfSome result (λ r. TellsFailedCall r → ⊥) }
    ensures valid { IsNone result → Contains (numbers hw.now.zones) p }
    ensures owned { IsNone result → owner_of (frame_entry hw.now frames.now p) ≡ t }
    ensures hardware { IsHardware hw.now }
    ensures pages { All IsPage frames.now }
{
    frames.are_pages();
    if !is_valid(hw, p) {
        return Some(Reply::NoFrame);
    }
    if owner_of(frames, hw, p) != t {
        return Some(Reply::NotOwner);
    }
    None
}

/// Returns whether the machine has a page frame.
pub(crate) fn is_valid(hw: &Hardware, p: u32) -> bool
    ensures test { result ≡ is_valid hw.now p }
    ensures valid { IsTrue result → Contains (numbers hw.now.zones) p }
    ensures hardware { IsHardware hw.now }
{
    hw.zones().valid(p)
}

/// Returns the task that owns a page frame, or 0 if none does.
fn owner_of(frames: &Frames, hw: &Hardware, p: u32) -> u32
    requires valid { Contains (numbers hw.now.zones) p }
    requires frames { length frames.now ≡ top hw.now.zones }
    ensures { result ≡ owner_of (frame_entry hw.now frames.now p) }
{
    u32::from(entry(frames, hw.frame_table(), p).1)
}
