//! Plans where loaded pages wait until they can be moved to their own page frames (get_safe_page and prepare_image,
//! kernel/power/snapshot.c).

mod plan;

ghost use Rattle.std.specs.Prelude.{◌≡◌, ◌<◌, ◌↔◌, [], true, false, IsErr, IfOk, IfErr, OnOk, OnErr, Some, length};
ghost use Rattle.std.specs.Prelude.{slice_get};
ghost use Rattle.placement.specs.Placed.{placed, sources, targets, IsPlacement, TakesFrom};
ghost use Rattle.placement.specs.Plan.{list_frames_for, need_for, planned};

use frame_sets::{Bitmap, Zones};
use page_core::NoMemory;
use plan::{pair, reserve};
use std::alloc::Global;
use std::marker::Model;
use thiserror::Error;

/// The moves that one list frame serves: it has 170 entries, and 85 moves make at most 170.
const MOVES_A_LIST_FRAME: u32 = 85;

/// Too few page frames are free to the loader.
#[derive(Clone, Copy, Debug, PartialEq, Eq, Error)]
#[error("{have} page frames are free to the loader, {need} are needed")]
pub struct TooFew {
    pub have: u32,
    pub need: u32,
}

/// The page frames in which loaded pages wait, each with the original that its page goes to, and the page frames for
/// the restore list and for a page that has to make way. A placement takes all its memory when it is made.
#[derive(Drop)]
pub struct Placement {
    zones: Zones,
    ready: bool,
    moves: Vec<(u32, u32)>,
    list: Vec<u32>,
    bounce: u32,
}

impl Model for Placement {
    ghost use Rattle.placement.specs.Placed.{Placed};

    ghost Value = { Placed };

    ghost use Rattle.placement.specs.KeptPlacement.{kept_placement, IsKept};

    ghost view = { kept_placement };

    ghost invariant = { IsKept };
}

impl Placement {
    /// Makes a placement that isn't ready, with the memory for every plan over these zones.
    pub fn create(alloc: Global, zones: &Zones) -> Result<Placement, NoMemory>
        ensures zones { IfOk result (λ p. p.zones ≡ zones.now) }
        ensures empty { IfOk result (λ p. (p.ready ≡ false) × (p.moves ≡ []) × (p.list ≡ [])) }
    {
        let count = zones.count();
        let moves = Vec::with_capacity(alloc, count as usize).map_err(|_| NoMemory)?;
        let list = Vec::with_capacity(alloc, list_frames_for(count) as usize).map_err(
            |_| NoMemory,
        )?;
        Ok(Placement {
            zones: *zones,
            ready: false,
            moves,
            list,
            bounce: 0,
        })
    }

    /// Makes the placement of these moves, as pairs (source, target), with these list frames and this bounce frame.
    pub fn given(
        alloc: Global,
        zones: &Zones,
        moves: &[(u32, u32)],
        list: &[u32],
        bounce: u32,
    ) -> Result<Placement, NoMemory>
        requires { IsPlacement (placed zones.now moves.now list.now bounce) }
        ensures { IfOk result (λ p. p ≡ placed zones.now moves.now list.now bounce) }
    {
        let mut placement = Placement::create(alloc, zones)?;
        placement
            .moves
            .extend_from_slice(moves)
            .map_err(|_| NoMemory)?;
        placement
            .list
            .extend_from_slice(list)
            .map_err(|_| NoMemory)?;
        placement.bounce = bounce;
        placement.ready = true;
        Ok(placement)
    }

    /// Plans the moves of pages to these originals, over the page frames that are free to the loader. The list frames
    /// and the bounce frame are the lowest free ones that aren't originals; the pages wait in the highest of the
    /// others. Refuses if too few are free, and then leaves the placement not ready.
    pub fn plan(&mut self, origs: &Bitmap, free: &Bitmap) -> Result<(), TooFew>
        requires origs { origs.now.zones ≡ self.old.zones }
        requires free { free.now.zones ≡ self.old.zones }
        ensures refused { IsErr result ↔ (length free.now.members < need_for (length origs.now.members)) }
        ensures tells { IfErr result (λ few. few ≡ record {
          have = length free.now.members;
          need = need_for (length origs.now.members);
        }) }
        ensures planned { OnOk result (self.new ≡ planned self.old.zones origs.now.members free.now.members) }
        ensures ready { OnOk result (self.new.ready ≡ true) }
        ensures placement { OnOk result (IsPlacement self.new) }
        ensures taken { OnOk result (TakesFrom free.now.members self.new) }
        ensures targets { OnOk result (targets self.new.moves ≡ origs.now.members) }
        ensures unready { OnErr result (self.new ≡ record self.old { ready = false }) }
        ensures zones { self.new.zones ≡ self.old.zones }
    {
        self.ready = false;
        let (count, have) = (origs.len(), free.len());
        let list_frames = list_frames_for(count);
        let need = count + list_frames + 1;
        if have < need {
            return Err(TooFew { have, need });
        }
        self.bounce = reserve(&mut self.list, origs, free, list_frames);
        pair(&mut self.moves, origs, free, self.bounce, have - need);
        self.ready = true;
        Ok(())
    }

    /// Returns the moves, as pairs (source, target).
    pub fn moves(&self) -> &[(u32, u32)]
        requires { self.now.ready ≡ true }
        ensures moves { result.now ≡ self.now.moves }
        ensures placement { IsPlacement self.now }
    {
        self.moves.as_slice()
    }

    /// Returns the page frame in which the k-th page waits.
    pub fn frame_for(&self, k: u32) -> u32
        requires ready { self.now.ready ≡ true }
        requires within { k < length self.now.moves }
        ensures frame { slice_get (sources self.now.moves) k ≡ Some result }
        ensures placement { IsPlacement self.now }
    {
        self.moves[k as usize].0
    }

    /// Returns the page frames that the restore list may use.
    pub fn list_frames(&self) -> &[u32]
        requires { self.now.ready ≡ true }
        ensures list { result.now ≡ self.now.list }
        ensures placement { IsPlacement self.now }
    {
        self.list.as_slice()
    }

    /// Returns the page frame for a page that has to make way.
    pub fn bounce(&self) -> u32
        requires { self.now.ready ≡ true }
        ensures bounce { result ≡ self.now.bounce }
        ensures placement { IsPlacement self.now }
    {
        self.bounce
    }
}

/// Returns how many list frames `moves` moves need.
fn list_frames_for(moves: u32) -> u32
    ensures { result ≡ list_frames_for moves }
{
    moves.div_ceil(MOVES_A_LIST_FRAME)
}
