//! Decides whether memory suffices for an image, and picks the page frames for its copies (kernel/power/snapshot.c,
//! enough_free_mem and swsusp_alloc).

ghost use Rattle.std.specs.Prelude.{◌≡◌, ℕ, ◌+◌, ◌-◌, ◌/◌, ◌<◌, ◌≤◌, ◌↔◌, ◌++◌, IsOk, IsErr, IfErr, filter, take, List};
ghost use Rattle.std.specs.Prelude.{length};
ghost use Rattle.std.specs.List.{Contains, range_with_len};
ghost use Rattle.definitions.specs.Zones.{numbers, top, zone_end};
ghost use Rattle.definitions.specs.ZoneFacts.{IsZone};
ghost use Rattle.definitions.specs.Tables.{HasTable};
ghost use Rattle.definitions.specs.Tables.{free_frames};
ghost use Rattle.frame_table.specs.Tests.{free_by_entry};

use crate::states::{PageFlags, entry};
use crate::view::View;
use definitions::SPARE_FRAMES;
use frame_sets::Bitmap;
use thiserror::Error;

/// Too few page frames are free.
#[derive(Clone, Copy, Debug, PartialEq, Eq, Error)]
#[error("{free} page frames are free, {need} are needed")]
pub struct Short {
    pub free: u32,
    pub need: u32,
}

/// Checks that `free` free page frames suffice for an image of `n` pages.
pub fn enough(free: u32, n: u32) -> Result<(), Short>
    requires { n ≤ 65536 }
    ensures enough { IsOk result ↔ (n + SPARE_FRAMES ≤ free) }
    ensures short { IsErr result ↔ (free < n + SPARE_FRAMES) }
    ensures tells { IfErr result (λ short. short ≡ record { free = free; need = n + SPARE_FRAMES }) }
{
    let need = n + SPARE_FRAMES;
    if free < need {
        return Err(Short { free, need });
    }
    Ok(())
}

/// Makes `set` the `n` lowest free page frames, or all of them if fewer are free.
pub fn pick(view: &View, n: u32, set: &mut Bitmap)
    requires table { HasTable view.now.frames.now view.now.table (top view.now.zones.now) }
    requires zones { set.old.zones ≡ view.now.zones.now }
    ensures { set.new ≡ record set.old {
      members = take n
          (free_frames view.now.zones.now view.now.table view.now.frames.now);
    } }
{
    set.clear_all();
    let mut left = n;
    for &zone in view.zones.as_slice() {
        left = pick_in_zone(view, zone, left, set);
    }
}

/// Adds the lowest free page frames, at most `most`, of a zone that lies above the members so far. Returns how many are
/// still to be added.
fn pick_in_zone(view: &View, zone: (u32, u32), most: u32, set: &mut Bitmap) -> u32
    requires zone { IsZone zone }
    requires valid { (p : ℕ) → zone.0 ≤ p → p < zone_end zone → Contains (numbers set.old.zones) p }
    requires above { (p : ℕ) → Contains set.old.members p → p < zone.0 }
    requires table { HasTable view.now.frames.now view.now.table (zone_end zone) }
    ensures set { set.new ≡ record set.old {
      members = set.old.members
          ++ take most (filter (free_by_entry view.now.table view.now.frames.now) (range_with_len zone.0 zone.1));
    } }
    ensures left { result ≡ most - length
        (filter (free_by_entry view.now.table view.now.frames.now) (range_with_len zone.0 zone.1)) }
{
    let (start, count) = zone;
    let mut left = most;
    for p in start..start + count {
        if left == 0 {
            return 0;
        }
        if entry(view.frames, view.table, p) == (PageFlags::FREE, 0) {
            set.set(p);
            left -= 1;
        }
    }
    left
}
