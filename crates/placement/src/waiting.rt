//! Brings the pages of a loaded image from where they wait to their own page frames (prepare_image and get_buffer,
//! kernel/power/snapshot.c).

mod sets;

ghost use Rattle.std.specs.Prelude.{◌≡◌, ◌≢◌, ℕ, ◌+◌, ◌<◌, ◌≤◌, ◌↔◌, ◌++◌, ◌∷◌, [], true, false, Contains, IsErr};
ghost use Rattle.std.specs.Prelude.{IsNone, IfOk, IfErr, IfSome, OnOk, is_ok, length};
ghost use Rattle.definitions.specs.Moves.{assigned};
ghost use Rattle.definitions.specs.Tables.{frame};
ghost use Rattle.definitions.specs.Zones.{top};
ghost use Rattle.placement.specs.Placed.{targets, IsPlacement, TakesFrom};
ghost use Rattle.placement.specs.Plan.{need_for, planned};
ghost use Rattle.placement.specs.Waiting.{with_data, WaitsNext, restored_page};

use crate::list::RestoreList;
use crate::planning::{Placement, TooFew};
use crate::relocation::{Steps, Work, execute, sequence};
use frame_arena::Frames;
use frame_sets::{Bitmap, Zones};
use page_core::{NoMemory, Page};
use sets::{mark_with_data, zero_apart};
use std::alloc::Global;
use std::marker::{Brand, Model};
use std::sync::ledger::{Blank, Ledger};

/// Pages of an image that wait for their page frames, and the page frames that are free to the loader. It takes all its
/// memory when it is made.
#[derive(Drop)]
pub struct Waiting {
    free: Bitmap,
    /// The originals with data.
    origs: Bitmap,
    /// Whether the placement is the last plan's.
    ready: bool,
    placement: Placement,
    work: Work,
    loaded: u32,
}

impl Model for Waiting {
    ghost use Rattle.placement.specs.Waiting.{Awaiting};

    ghost Value = { Awaiting };

    ghost use Rattle.placement.specs.KeptWaiting.{kept_waiting, IsKept};

    ghost view = { kept_waiting };

    ghost invariant = { IsKept };
}

impl Waiting {
    /// Makes a value in which no page waits and no page frame is free to the loader.
    pub fn create(alloc: Global, zones: &Zones) -> Result<Waiting, NoMemory>
        ensures zones { IfOk result (λ w. w.zones ≡ zones.now) }
        ensures empty { IfOk result (λ w. (w.free ≡ []) × (w.originals ≡ []) × (w.loaded ≡ 0)) }
        ensures unready { IfOk result (λ w. w.placement.ready ≡ false) }
    {
        Ok(Waiting {
            free: Bitmap::create(alloc, zones)?,
            origs: Bitmap::create(alloc, zones)?,
            ready: false,
            placement: Placement::create(alloc, zones)?,
            work: Work::create(alloc, zones.top())?,
            loaded: 0,
        })
    }

    /// Begins with these page frames free to the loader, and nothing planned.
    pub fn begin(&mut self, free: &Bitmap)
        requires { free.now.zones ≡ self.old.zones }
        ensures free { self.new.free ≡ free.now.members }
        ensures empty { self.new.originals ≡ [] }
        ensures loaded { self.new.loaded ≡ 0 }
        ensures unready { self.new.placement.ready ≡ false }
        ensures zones { self.new.zones ≡ self.old.zones }
    {
        self.ready = false;
        self.loaded = 0;
        self.origs.clear_all();
        self.free.copy_from(free);
    }

    /// Plans where the pages of these originals wait, except those without data. Refuses if too few page frames are
    /// free.
    pub fn plan(&mut self, origs: &Bitmap, zeros: &Bitmap) -> Result<(), TooFew>
        requires { origs.now.zones ≡ self.old.zones }
        ensures refused { IsErr result ↔
            (length self.old.free < need_for (length (with_data origs.now.members zeros.now.members))) }
        ensures tells { IfErr result (λ few. few ≡ record {
          have = length self.old.free;
          need = need_for (length (with_data origs.now.members zeros.now.members));
        }) }
        ensures planned { OnOk result (self.new.placement ≡ planned self.old.zones
            (with_data origs.now.members zeros.now.members) self.old.free) }
        ensures ready { self.new.placement.ready ≡ is_ok result }
        ensures placement { OnOk result (IsPlacement self.new.placement) }
        ensures taken { OnOk result (TakesFrom self.old.free self.new.placement) }
        ensures targets { OnOk result (targets self.new.placement.moves ≡ with_data origs.now.members
            zeros.now.members) }
        ensures originals { self.new.originals ≡ with_data origs.now.members zeros.now.members }
        ensures free { self.new.free ≡ self.old.free }
        ensures zones { self.new.zones ≡ self.old.zones }
        ensures loaded { self.new.loaded ≡ 0 }
    {
        self.ready = false;
        self.loaded = 0;
        mark_with_data(&mut self.origs, origs, zeros);
        self.placement.plan(&self.origs, &self.free)?;
        self.ready = true;
        Ok(())
    }

    /// Returns how many pages don't wait yet.
    pub fn left(&self) -> u32
        requires { self.now.placement.ready ≡ true }
        ensures { result + self.now.loaded ≡ length self.now.originals }
    {
        self.origs.len() - self.loaded
    }

    /// Returns the page frame in which the next original's page is to wait, or None if all of them wait.
    pub fn next(&self) -> Option<u32>
        requires { self.now.placement.ready ≡ true }
        ensures all_wait { IsNone result ↔ (self.now.loaded ≡ length self.now.originals) }
        ensures waits { IfSome result (WaitsNext self.now) }
    {
        if self.loaded < self.origs.len() {
            Some(self.placement.frame_for(self.loaded))
        } else {
            None
        }
    }

    /// Counts the next original's page, which now waits in its page frame.
    pub fn placed(&mut self)
        requires ready { self.old.placement.ready ≡ true }
        requires left { self.old.loaded < length self.old.originals }
        ensures { self.new ≡ record self.old { loaded = self.old.loaded + 1 } }
    {
        // This tells the prover that one more can be counted.
        let left = self.loaded < self.origs.len();
        prove!(left);
        self.loaded += 1;
    }

    /// Brings the pages to their page frames all at once. Once all are placed, every other page frame of `cleared`,
    /// which are the originals or those of them without data, is zero afterwards, and so is every other page frame that
    /// was free to the loader (swsusp_arch_resume, and clear_free_pages of kernel/power/snapshot.c).
    pub fn finish(&mut self, frames: &mut Frames, cleared: &Bitmap)
        requires ready { self.old.placement.ready ≡ true }
        requires frames { top self.old.zones ≤ length frames.old }
        requires cleared { cleared.now.zones ≡ self.old.zones }
        ensures restored { self.old.loaded ≡ length self.old.originals → (p : ℕ) →
            frame frames.new p ≡ restored_page frames.old self.old cleared.now.members p }
        ensures size { length frames.new ≡ length frames.old }
        ensures waiting { self.new ≡ self.old }
    {
        move_pages::<Brand>(&self.placement, &mut self.work, frames, Blank::new(1));
        zero_apart(frames, &self.free, &self.origs);
        zero_apart(frames, cleared, &self.origs);
    }
}

/// Makes the moves of a placement all at once. Afterwards the list frames and the bounce frame may hold anything.
fn move_pages<L: Ledger>(placement: &Placement, work: &mut Work, frames: &mut Frames, blank: Blank)
    requires name { blank.name ≡ L.name }
    requires parts { blank.parts ≡ L.parts }
    requires some { 0 < blank.parts }
    requires ready { placement.now.ready ≡ true }
    requires placement { IsPlacement placement.now }
    requires frames { top placement.now.zones ≤ length frames.old }
    requires work { top placement.now.zones ≤ work.old }
    ensures moves { (p : ℕ) → (Contains placement.now.list p → ⊥) → p ≢ placement.now.bounce →
        frame frames.new p ≡ frame (assigned frames.old placement.now.moves) p }
    ensures size { length frames.new ≡ length frames.old }
    ensures work { work.new ≡ work.old }
{
    let mut list = RestoreList::begin(frames, placement);
    sequence(placement, work, frames, &mut list);
    let mut steps = Steps::<L>::begin(blank);
    execute(frames, &list, &mut steps);
}
