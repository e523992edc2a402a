ghost use Rattle.std.specs.Prelude.{◌≡◌, ℕ, ◌+◌, ◌*◌, ◌<◌, ◌≤◌, [], List, length, All, Contains};
ghost use Rattle.definitions.specs.Moves.{Move, join_all};
ghost use Rattle.definitions.specs.Tables.{frame};
ghost use Rattle.placement.specs.Listed.{LiesIn};
ghost use Rattle.placement.specs.Joining.{continued, LiesBelow};

use crate::list::RestoreList;
use frame_arena::Frames;

/// A run of moves: the page of `from + i` goes to `to + i`, for each i below `count`.
type Run = (u32, u32, u32);

/// Writes moves, in order, into an empty restore list. A move that continues the run before it is joined to that run.
pub(crate) fn write_runs(
    moves: &[(u32, u32)],
    bounce: u32,
    frames: &mut Frames,
    list: &mut RestoreList,
)
    requires empty { LiesIn frames.old list.old [] }
    requires room { length (join_all bounce moves.now) ≤ 170 * length list.old.frames }
    requires below { All (λ m. (m.0 < 65536) × (m.1 < 65536)) moves.now }
    ensures listed { LiesIn frames.new list.new (join_all bounce moves.now) }
    ensures list { list.new.frames ≡ list.old.frames }
    ensures others { (p : ℕ) → (Contains list.old.frames p → ⊥) → frame frames.new p ≡ frame frames.old p }
    ensures size { length frames.new ≡ length frames.old }
{
    if moves.is_empty() {
        return;
    }
    let mut run = (moves[0].0, moves[0].1, 1);
    for &next in &moves[1..] {
        match continue_run(run, next, bounce) {
            Some(longer) => run = longer,
            None => {
                list.push(frames, run.0, run.1, run.2);
                run = (next.0, next.1, 1);
            }
        }
    }
    list.push(frames, run.0, run.1, run.2);
}

/// Returns the run that a move makes of the run before it, if it continues that one.
fn continue_run(run: Run, next: (u32, u32), bounce: u32) -> Option<Run>
    requires run { LiesBelow 65536 run }
    requires next { (next.0 < 65536) × (next.1 < 65536) }
    ensures { result ≡ continued bounce run next }
{
    let (from, to, count) = run;
    if from == bounce || to == bounce || next.0 == bounce || next.1 == bounce {
        return None;
    }
    if next.0 == from + count && next.1 == to + count {
        return Some((from, to, count + 1));
    }
    if next.0 + 1 == from && next.1 + 1 == to {
        return Some((next.0, next.1, count + 1));
    }
    None
}
