ghost use Rattle.std.specs.Prelude.{◌≡◌, ℕ, ◌+◌, ◌*◌, ◌<◌, ◌≤◌, ◌++◌, ◌∷◌, [], List, length, take, IfOk, IfSome};
ghost use Rattle.std.specs.Prelude.{IfNone, None, slice_index_or};
ghost use Rattle.definitions.specs.Moves.{Pass, Move, without_target, pass_over, paths_over, cycles_over, ascending};
ghost use Rattle.definitions.specs.Moves.{descending, with_bounce, sequence};
ghost use Rattle.placement.specs.Pending.{IsMovable, begun};

use page_core::NoMemory;
use std::alloc::Global;

/// Moves that are being put in an order in which none overwrites a page that is still to be moved.
#[derive(Drop)]
pub(crate) struct Order {
    /// The number of page frames that the tables cover, from 0 on.
    top: u32,
    /// The source of the pending move into each page frame.
    sources: Vec<Option<u32>>,
    /// Whether a pending move leaves each page frame.
    leaves: Vec<bool>,
    pending: usize,
    /// The moves in order, which are the first `len` of these.
    moves: Vec<(u32, u32)>,
    len: usize,
}

impl Order {
    ghost use Rattle.placement.specs.Tables.{Follows, HasPass, HasRoom, IsAt, IsSized};

    /// Takes memory for moves between page frames below `top`.
    pub(crate) fn create(alloc: Global, top: u32) -> Result<Order, NoMemory>
        ensures top { IfOk result (λ order. order.top ≡ top) }
        ensures sized { IfOk result IsSized }
    {
        let n = top as usize;
        Ok(Order {
            top,
            sources: Vec::from_elem(alloc, None, n).map_err(|_| NoMemory)?,
            leaves: Vec::from_elem(alloc, false, n).map_err(|_| NoMemory)?,
            pending: 0,
            moves: Vec::from_elem(alloc, (0, 0), 2 * n).map_err(|_| NoMemory)?,
            len: 0,
        })
    }

    /// Puts moves in order. Each cycle goes through the bounce frame.
    pub(crate) fn arrange(&mut self, moves: &[(u32, u32)], bounce: u32)
        requires sized { IsSized self.old }
        requires movable { IsMovable self.old.top bounce moves.now }
        ensures order { take self.new.len self.new.moves.items ≡ sequence self.old.top bounce moves.now }
        ensures len { self.new.len ≤ length self.new.moves.items }
        ensures sized { IsSized self.new }
        ensures top { self.new.top ≡ self.old.top }
    {
        self.load(moves);
        self.descend();
        self.ascend();
        self.follow_paths();
        self.break_cycles(bounce);
    }

    /// Returns the moves in order.
    pub(crate) fn moves(&self) -> &[(u32, u32)]
        requires { self.now.len ≤ length self.now.moves.items }
        ensures { result.now ≡ take self.now.len self.now.moves.items }
    {
        &self.moves[..self.len]
    }

    /// Makes moves pending, except those of a page frame to itself.
    fn load(&mut self, moves: &[(u32, u32)])
        requires sized { IsSized self.old }
        requires movable { (bounce : ℕ) × IsMovable self.old.top bounce moves.now }
        ensures at { IsAt self.new (begun moves.now) }
        ensures room { HasRoom self.new }
        ensures sized { IsSized self.new }
        ensures top { self.new.top ≡ self.old.top }
    {
        self.sources.fill(None);
        self.leaves.fill(false);
        self.pending = 0;
        self.len = 0;
        for &(from, to) in moves {
            if from != to {
                self.sources[to as usize] = Some(from);
                self.leaves[from as usize] = true;
                self.pending += 1;
            }
        }
    }

    /// Goes from the highest target to the lowest, and puts in order each pending move that overwrites no page still to
    /// be moved.
    fn descend(&mut self)
        requires pass { HasPass self.old }
        requires room { HasRoom self.old }
        ensures follows { Follows self.old self.new (pass_over (descending self.old.top)) }
        ensures room { HasRoom self.new }
    {
        for p in (0..self.top).rev() {
            self.emit_free(p);
        }
    }

    /// Does the same from the lowest target to the highest.
    fn ascend(&mut self)
        requires pass { HasPass self.old }
        requires room { HasRoom self.old }
        ensures follows { Follows self.old self.new (pass_over (ascending self.old.top)) }
        ensures room { HasRoom self.new }
    {
        for p in 0..self.top {
            self.emit_free(p);
        }
    }

    /// Puts each path of pending moves in order, from its end back.
    fn follow_paths(&mut self)
        requires pass { HasPass self.old }
        requires room { HasRoom self.old }
        ensures follows { Follows self.old self.new (paths_over (ascending self.old.top)) }
        ensures room { HasRoom self.new }
    {
        for p in 0..self.top {
            self.emit_path(p);
        }
    }

    /// Puts each cycle of pending moves in order.
    fn break_cycles(&mut self, bounce: u32)
        requires pass { HasPass self.old }
        requires room { HasRoom self.old }
        ensures follows { Follows self.old self.new (cycles_over bounce (ascending self.old.top)) }
        ensures room { HasRoom self.new }
    {
        for p in 0..self.top {
            self.emit_cycle(p, bounce);
        }
    }

    /// Puts the pending move into a page frame in order, unless the page there is itself to be moved.
    fn emit_free(&mut self, target: u32)
        requires pass { HasPass self.old }
        requires within { target < self.old.top }
        requires room { HasRoom self.old }
        ensures follows { Follows self.old self.new (pass_over (target ∷ [])) }
        ensures room { HasRoom self.new }
    {
        if self.leaves[target as usize] {
            return;
        }
        if let Some(source) = self.take(target) {
            self.emit(source, target);
        }
    }

    /// Puts in order the path of pending moves that ends in a page frame whose own page isn't to be moved.
    fn emit_path(&mut self, end: u32)
        requires pass { HasPass self.old }
        requires within { end < self.old.top }
        requires room { HasRoom self.old }
        ensures follows { Follows self.old self.new (paths_over (end ∷ [])) }
        ensures room { HasRoom self.new }
    {
        if self.leaves[end as usize] {
            return;
        }
        let mut target = end;
        while let Some(source) = self.take(target) {
            self.emit(source, target);
            target = source;
        }
    }

    /// Puts in order the cycle of pending moves through a page frame, whose page waits in the bounce frame.
    fn emit_cycle(&mut self, start: u32, bounce: u32)
        requires pass { HasPass self.old }
        requires within { start < self.old.top }
        requires room { HasRoom self.old }
        ensures follows { Follows self.old self.new (cycles_over bounce (start ∷ [])) }
        ensures room { HasRoom self.new }
    {
        let Some(first) = self.take(start) else {
            return;
        };
        self.emit(start, bounce);
        self.emit(source_in_cycle(first, start, bounce), start);
        let mut target = first;
        while let Some(source) = self.take(target) {
            self.emit(source_in_cycle(source, start, bounce), target);
            target = source;
        }
    }

    /// Adds a move to those in order.
    fn emit(&mut self, from: u32, to: u32)
        requires pass { HasPass self.old }
        requires room { self.old.len < length self.old.moves.items }
        ensures follows { Follows self.old self.new (λ pass. record pass {
          emitted = pass.emitted ++ (from, to)
              ∷ [];
        }) }
        ensures len { self.new.len ≡ self.old.len + 1 }
        ensures pending { self.new.pending ≡ self.old.pending }
    {
        self.moves[self.len] = (from, to);
        self.len += 1;
    }

    /// Removes the pending move into a page frame, and returns its source.
    fn take(&mut self, target: u32) -> Option<u32>
        requires pass { HasPass self.old }
        requires within { target < self.old.top }
        ensures follows { Follows self.old self.new
            (λ pass. record pass { pending = without_target pass.pending target }) }
        ensures source { result ≡ slice_index_or self.old.sources.items target None }
        ensures len { self.new.len ≡ self.old.len }
        ensures fewer { IfSome result (λ s. (s < self.old.top) × (self.new.pending + 1 ≡ self.old.pending)) }
        ensures none { IfNone result (self.new.pending ≡ self.old.pending) }
    {
        let source = self.sources[target as usize]?;
        self.sources[target as usize] = None;
        self.leaves[source as usize] = false;
        self.pending -= 1;
        Some(source)
    }
}

/// Returns where the page lies that a cycle's move takes from `source`: the page of `start` waits in the bounce frame.
fn source_in_cycle(source: u32, start: u32, bounce: u32) -> u32
    ensures { (target : ℕ) → (result, target) ≡ with_bounce bounce start (source, target) }
{
    if source == start { bounce } else { source }
}
