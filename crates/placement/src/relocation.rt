//! Moves pages over each other: puts the moves in order, and performs them (the restore list of
//! kernel/power/snapshot.c). On resume the saved pages wait wherever the loader has room, often in page frames that
//! other saved pages must go to.

ghost use Rattle.std.specs.Prelude.{◌≡◌, ◌≢◌, ℕ, ◌+◌, ◌*◌, ◌<◌, ◌≤◌, ◌∷◌, [], true, List, length, take, IfOk, Contains};
ghost use Rattle.definitions.specs.Moves.{Entry, assigned};
ghost use Rattle.definitions.specs.Tables.{frame};
ghost use Rattle.definitions.specs.Zones.{top};
ghost use Rattle.placement.specs.Listed.{LiesIn};
ghost use Rattle.placement.specs.Placed.{Placed, IsPlacement};
ghost use Rattle.placement.specs.Performing.{performed};
ghost use Rattle.placement.specs.Relocation.{order_of, steps_of, most_steps, IsPerformable, IsReady, Relocates};
ghost use Rattle.placement.specs.Tables.{IsSized};

mod order;
mod runs;
mod steps;

use crate::list::RestoreList;
use crate::planning::Placement;
use frame_arena::Frames;
use order::Order;
use page_core::NoMemory;
use runs::write_runs;
use std::alloc::Global;
use std::marker::Model;
use std::sync::ledger::Ledger;
pub use steps::Steps;

/// The memory in which moves are put in order. It is taken once; a contract sees up to which page frame it suffices.
#[derive(Drop)]
pub struct Work {
    order: Order,
}

impl Model for Work {
    ghost Value = { ℕ };

    ghost view = { λ w. w.order.top };

    ghost invariant = { λ w. IsSized w.order };
}

impl Work {
    /// Takes memory for moves between page frames below `top`.
    pub fn create(alloc: Global, top: u32) -> Result<Work, NoMemory>
        ensures { IfOk result (λ work. work ≡ top) }
    {
        let order = Order::create(alloc, top)?;
        Ok(Work { order })
    }
}

/// Writes the restore list of a placement: its moves in an order in which they can be made one after another.
pub fn sequence(placement: &Placement, work: &mut Work, frames: &mut Frames, list: &mut RestoreList)
    requires ready { placement.now.ready ≡ true }
    requires frames { top placement.now.zones ≤ length frames.old }
    requires work { top placement.now.zones ≤ work.old }
    requires list { list.old.frames ≡ placement.now.list }
    requires empty { LiesIn frames.old list.old [] }
    ensures listed { LiesIn frames.new list.new (order_of placement.now) }
    ensures ready { IsReady frames.new list.new }
    ensures list { list.new ≡ record list.old { len = length (order_of placement.now) } }
    ensures others { (p : ℕ) → (Contains placement.now.list p → ⊥) → frame frames.new p ≡ frame frames.old p }
    // Outside the list frames, the moves, all at once as `execute` makes them, have the same result as before the call.
    ensures moves { (p : ℕ) → (Contains placement.now.list p → ⊥) →
        frame (assigned frames.new placement.now.moves) p ≡ frame (assigned frames.old placement.now.moves) p }
    ensures size { length frames.new ≡ length frames.old }
    ensures work { work.new ≡ work.old }
{
    let bounce = placement.bounce();
    work.order.arrange(placement.moves(), bounce);
    write_runs(work.order.moves(), bounce, frames, list);
}

/// Moves the pages of a restore list, run by run. Each page copied is a step.
pub fn execute<L: Ledger>(frames: &mut Frames, list: &RestoreList, steps: &mut Steps<L>)
    requires { IsReady frames.old list.now }
    ensures performed { (entries : List Entry) → LiesIn frames.old list.now entries →
        frames.new ≡ performed frames.old entries }
    ensures relocates { Relocates frames.old frames.new list.now }
    ensures list { (p : ℕ) → Contains list.now.frames p → frame frames.new p ≡ frame frames.old p }
    ensures size { length frames.new ≡ length frames.old }
    ensures steps { (entries : List Entry) → LiesIn frames.old list.now entries →
        steps.new ≡ steps.old + steps_of entries }
    ensures most { (p : Placed) → IsPlacement p → LiesIn frames.old list.now (order_of p) →
        steps.new ≤ steps.old + most_steps p }
{
    for j in 0..list.len() {
        let (from, to, count) = list.entry(frames, j);
        frames.copy_run(from, to, count);
        steps.count(count);
    }
}
