//! The restore list: which pages are to be copied where, in order, inside page frames that no copy touches
//! (struct pbe, kernel/power/snapshot.c).

ghost use Rattle.std.specs.Prelude.{◌≡◌, ℕ, ◌+◌, ◌*◌, ◌/◌, ◌%◌, ◌<◌, ◌≤◌, List, [], ◌∷◌, ◌++◌, true, All, Some, length};
ghost use Rattle.std.specs.Prelude.{slice_get, slice_index, Contains};
ghost use Rattle.definitions.specs.Moves.{Entry};
ghost use Rattle.definitions.specs.Tables.{frame};
ghost use Rattle.definitions.specs.Zones.{top};
ghost use Rattle.placement.specs.Listed.{LiesIn, next_frame, Listed};
ghost use Rattle.placement.specs.KeptList.{kept_list, IsKept};

use crate::planning::Placement;
use frame_arena::Frames;
use std::marker::Model;

/// The entries of a list frame.
const ENTRIES: u32 = 170;

/// The word of the last list frame, which names no next one.
const END: u64 = u64::MAX;

/// A restore list in the list frames of a placement. An entry is a run (from, to, count): the pages of `count` page
/// frames from `from` on are to be copied to those from `to` on.
#[derive(Drop)]
pub struct RestoreList<'a> {
    frames: &'a [u32],
    len: u32,
}

impl<'a> Model for RestoreList<'a> {
    ghost Value = { Listed };

    ghost view = { kept_list };

    ghost invariant = { IsKept };
}

impl<'a> RestoreList<'a> {
    /// Makes an empty restore list in the list frames of a placement.
    pub fn begin(frames: &mut Frames, placement: &'a Placement) -> RestoreList<'a>
        requires ready { placement.now.ready ≡ true }
        requires frames { top placement.now.zones ≤ length frames.old }
        ensures list { result ≡ record { frames = placement.now.list; len = 0 } }
        ensures empty { LiesIn frames.new result [] }
        ensures others { (p : ℕ) → (Contains placement.now.list p → ⊥) → frame frames.new p ≡ frame frames.old p }
        ensures size { length frames.new ≡ length frames.old }
    {
        let list = placement.list_frames();
        for i in 0..list.len() {
            frames.zero(list[i]);
            frames.set_word(list[i], 0, next_frame(list, i));
        }
        RestoreList {
            frames: list,
            len: 0,
        }
    }

    /// Adds an entry.
    pub fn push(&mut self, frames: &mut Frames, from: u32, to: u32, count: u32)
        requires within { All (λ p. p < length frames.old) self.old.frames }
        requires room { self.old.len < 170 * length self.old.frames }
        ensures list { self.new ≡ record self.old { len = self.old.len + 1 } }
        ensures pushed { (entries : List Entry) → LiesIn frames.old self.old entries →
            LiesIn frames.new self.new (entries ++ (from, to, count) ∷ []) }
        ensures others { (p : ℕ) → (Contains self.old.frames p → ⊥) → frame frames.new p ≡ frame frames.old p }
        ensures size { length frames.new ≡ length frames.old }
    {
        let (p, at) = place(self.frames, self.len);
        frames.set_word(p, at, u64::from(from));
        frames.set_word(p, at + 1, u64::from(to));
        frames.set_word(p, at + 2, u64::from(count));
        self.len += 1;
    }

    /// Returns entry `j`, from 0.
    pub fn entry(&self, frames: &Frames, j: u32) -> (u32, u32, u32)
        requires within { All (λ p. p < length frames.now) self.now.frames }
        requires listed { j < self.now.len }
        ensures { (entries : List Entry) → LiesIn frames.now self.now entries → slice_get entries j ≡ Some result }
    {
        let (p, at) = place(self.frames, j);
        // The numbers are below 2^32, so each is the low half of its word.
        (
            frames.u32_at(p, 8 * at),
            frames.u32_at(p, 8 * at + 8),
            frames.u32_at(p, 8 * at + 16),
        )
    }

    /// Returns how many entries there are.
    pub fn len(&self) -> u32
        ensures { result ≡ self.now.len }
    {
        self.len
    }
}

/// Returns the list frame of entry `j`, and the index of the entry's first word there.
fn place(list: &[u32], j: u32) -> (u32, usize)
    requires { j < 170 * length list.now }
    ensures frame { result.0 ≡ slice_index list.now (j / 170) }
    ensures word { result.1 ≡ 1 + 3 * (j % 170) }
{
    (list[(j / ENTRIES) as usize], 1 + 3 * (j % ENTRIES) as usize)
}

/// Returns the word that names the list frame after the i-th.
fn next_frame(list: &[u32], i: usize) -> u64
    requires { i < length list.now }
    ensures { result ≡ next_frame list.now i }
{
    match list.get(i + 1) {
        Some(next) => u64::from(*next),
        None => END,
    }
}
