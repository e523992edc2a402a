ghost use Rattle.std.specs.Prelude.{◌≡◌, ℕ, ◌++◌, ◌∷◌, [], IfOk, IfErr, OnOk, All, Contains, List, Some, None, length};
ghost use Rattle.definitions.specs.Zones.{numbers, top};
ghost use Rattle.image_machine.specs.Filled.{IsFilled};
ghost use Rattle.image_machine.specs.Limits.{StopsAtOnce};
ghost use Rattle.image_machine.specs.Machines.{IsFirstAmiss, IsMachineFor, PassesWith, SavesJust};
ghost use Rattle.image_machine.specs.declared.limit.Limit.TheVariants as limit;
ghost use Rattle.frame_sets.specs.FrameSet.{IsFrameSet};

use crate::heading::{Heading, Layout};
use crate::in_use::set_in_use;
use crate::limit::{Limit, Stop};
use crate::plan::Plan;
use frame_arena::Frames;
use frame_sets::Bitmap;
use frame_table::{View, saveable};
use machine::{Dump, Hardware, set_slots, tables_fit};
use page_core::Page;
use std::alloc::Global;

/// A plan, and the saved pages in their page frames.
#[derive(Drop)]
pub struct FilledPlan<'a> {
    pub plan: Plan<'a>,
    frames: Frames,
}

impl<'a> FilledPlan<'a> {
    ghost use Rattle.std.specs.Prelude.{◌≡◌, ◌<◌, ℕ, ◌++◌, ◌∷◌, [], IfOk, IfErr, OnOk, All, Contains, List, None, Some};
    ghost use Rattle.definitions.specs.Zones.{numbers};
    ghost use Rattle.image_machine.specs.Filled.{IsFilled};
    ghost use Rattle.image_machine.specs.Limits.{StopsAtOnce};
    ghost use Rattle.image_machine.specs.Machines.{IsMachineFor, PassesWith, numbers_of};
    ghost use Rattle.image_machine.specs.declared.limit.Limit.TheVariants as limit;

    /// Returns a plan for an image of which no saved page frame is known yet.
    pub fn of(alloc: Global, heading: &Heading, layout: Layout<'a>) -> Result<FilledPlan<'a>, Stop>
        ensures filled { IfOk result (λ filled. IsFilled filled []) }
        ensures heading { IfOk result (λ filled. filled.plan.heading ≡ heading.now) }
        ensures layout { IfOk result (λ filled. filled.plan.layout ≡ layout.entry) }
        ensures stopped { IfErr result (StopsAtOnce heading.now layout.entry) }
    {
        let plan = Plan::of(alloc, heading, layout)?;
        let frames = Frames::create(alloc, plan.zones.top())?;
        Ok(FilledPlan { plan, frames })
    }

    /// Adds a page frame that was saved, with its page. Its number is above those before it.
    pub fn add(&mut self, number: u64, page: &Page) -> Result<(), Limit>
        requires { (saved : List (ℕ × List ℕ)) × IsFilled self.old saved }
        ensures filled { OnOk result ((saved : List (ℕ × List ℕ)) → IsFilled self.old saved →
            All (λ m. m < number) (numbers_of saved) → IsFilled self.new (saved ++ (number, page.now) ∷ [])) }
        ensures outside { IfErr result (λ why. (why ≡ limit.Outside number)
            × (Contains (numbers self.old.plan.zones) number → ⊥)) }
        ensures heading { self.new.plan.heading ≡ self.old.plan.heading }
        ensures layout { self.new.plan.layout ≡ self.old.plan.layout }
        ensures zones { self.new.plan.zones ≡ self.old.plan.zones }
    {
        self.plan.add(number)?;
        self.frames.write(number as u32, page);
        Ok(())
    }

    /// Returns the machine of an image, once all its saved page frames were added. Its tables are in the image, from
    /// these page frames on; without `tables` it gets tables in page frames that the image doesn't save.
    #[inline(never)]
    pub fn machine(self, tables: Option<(u32, u32)>) -> Result<Dump, Limit>
        requires { (saved : List (ℕ × List ℕ)) × IsFilled self saved }
        ensures machine { IfOk result (λ dump. (saved : List (ℕ × List ℕ)) → IsFilled self.entry saved →
            IsMachineFor self.entry.plan.heading self.entry.plan.layout tables saved dump.hw dump.frames) }
        ensures passed { IfErr result (λ why. (saved : List (ℕ × List ℕ)) → IsFilled self.entry saved →
            PassesWith self.entry.plan.heading self.entry.plan.layout tables saved why) }
    {
        match tables {
            None => self.with_new_tables(),
            Some((frame_table, slot_table)) => self.with_own_tables(frame_table, slot_table),
        }
    }

    /// Returns the machine with new tables.
    fn with_new_tables(self) -> Result<Dump, Limit>
        requires { (saved : List (ℕ × List ℕ)) × IsFilled self saved }
        ensures machine { IfOk result (λ dump. (saved : List (ℕ × List ℕ)) → IsFilled self.entry saved →
            IsMachineFor self.entry.plan.heading self.entry.plan.layout None saved dump.hw dump.frames) }
        ensures passed { IfErr result (λ why. (saved : List (ℕ × List ℕ)) → IsFilled self.entry saved →
            PassesWith self.entry.plan.heading self.entry.plan.layout None saved why) }
    {
        let FilledPlan { plan, mut frames } = self;
        let hw = plan.hardware()?;
        frames.are_pages();
        set_in_use(&mut frames, &hw, &plan.saved);
        set_slots(&mut frames, &hw, &Ok(plan.heading.area));
        Ok(Dump { hw, frames })
    }

    /// Returns the machine whose tables are in the image.
    fn with_own_tables(self, frame_table: u32, slot_table: u32) -> Result<Dump, Limit>
        requires { (saved : List (ℕ × List ℕ)) × IsFilled self saved }
        ensures machine { IfOk result (λ dump. (saved : List (ℕ × List ℕ)) → IsFilled self.entry saved →
            IsMachineFor self.entry.plan.heading self.entry.plan.layout (Some (frame_table, slot_table)) saved
            dump.hw dump.frames) }
        ensures passed { IfErr result (λ why. (saved : List (ℕ × List ℕ)) → IsFilled self.entry saved →
            PassesWith self.entry.plan.heading self.entry.plan.layout (Some (frame_table, slot_table)) saved why) }
    {
        let FilledPlan { plan, frames } = self;
        let hw = plan.hardware_with(frame_table, slot_table)?;
        if let Err(number) = tables_fit(&frames, &hw) {
            return Err(Limit::Tables { number });
        }
        if let Err(number) = saves_just(&frames, &hw, &plan.saved) {
            return Err(Limit::Tables { number });
        }
        Ok(Dump { hw, frames })
    }
}

/// Checks that exactly the saved page frames are saveable; the error is the first page frame that is one but not the
/// other.
fn saves_just(frames: &Frames, hw: &Hardware, saved: &Bitmap) -> Result<(), u32>
    requires size { length frames.now ≡ top hw.now.zones }
    requires zones { saved.now.zones ≡ hw.now.zones }
    requires set { IsFrameSet saved.now }
    ensures just { OnOk result (SavesJust hw.now frames.now saved.now.members) }
    ensures amiss { IfErr result (IsFirstAmiss hw.now frames.now saved.now.members) }
{
    let view = View {
        frames,
        zones: hw.zones(),
        table: hw.frame_table(),
    };
    for p in 0..hw.zones().top() {
        if saveable(&view, p) != saved.has(p) {
            return Err(p);
        }
    }
    Ok(())
}
