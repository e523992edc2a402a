ghost use Rattle.std.specs.Prelude.{◌≡◌, ℕ, ◌≤◌, Contains, length};
ghost use Rattle.definitions.specs.Bytes.{zero_page};
ghost use Rattle.definitions.specs.Tables.{frame};
ghost use Rattle.definitions.specs.Zones.{top};
ghost use Rattle.placement.specs.Waiting.{with_data};

use frame_arena::Frames;
use frame_sets::Bitmap;

/// Makes `set` the originals except those without data.
pub(crate) fn mark_with_data(set: &mut Bitmap, origs: &Bitmap, zeros: &Bitmap)
    requires { set.old.zones ≡ origs.now.zones }
    ensures { set.new ≡ record set.old { members = with_data origs.now.members zeros.now.members } }
{
    set.copy_from(origs);
    origs.is_frame_set();
    for p in zeros.iter() {
        if set.has(p) {
            set.clear(p);
        }
    }
}

/// Sets to zero each page frame of a set that isn't in `kept`.
pub(crate) fn zero_apart(frames: &mut Frames, set: &Bitmap, kept: &Bitmap)
    requires { top set.now.zones ≤ length frames.old }
    ensures zero { (p : ℕ) → Contains set.now.members p → (Contains kept.now.members p → ⊥) →
        frame frames.new p ≡ zero_page }
    ensures kept { (p : ℕ) → Contains kept.now.members p → frame frames.new p ≡ frame frames.old p }
    ensures others { (p : ℕ) → (Contains set.now.members p → ⊥) → frame frames.new p ≡ frame frames.old p }
    ensures size { length frames.new ≡ length frames.old }
{
    for p in set.iter() {
        if !kept.has(p) {
            frames.zero(p);
        }
    }
}
