ghost use Rattle.std.specs.Prelude.{◌≡◌, ◌≤◌, ℕ, List, true, IfNone, IfSome};
ghost use Rattle.image_walk.specs.Names.{Name, is_over};
ghost use Rattle.image_walk.specs.Walking.{Follows, StepsTo};
ghost use Rattle.overlay_disk.specs.DiskState.{IsSame};

use image_walk::{Visit, Walker};
use overlay_disk::{Lent, ReadOnly};
use page_core::Page;
use sector_disk::Disk;

/// A disk that is only read, and in which a walker finds the blocks that an image names.
pub trait Walks: ReadOnly {
    /// Lets a walker continue.
    fn step(&mut self, walker: &mut Walker, page: &mut Page) -> Option<Visit>
        requires { (Self.state self.old).blocks ≡ walker.old.limits.blocks }
        ensures step { IfSome result (λ visit. (first : ℕ) (h : List Name) → Follows first walker.old h →
            StepsTo first (Self.state self.old).content (Self.state self.old).faults (Self.state self.new).faults h
            walker.old walker.new visit page.new) }
        ensures end { IfNone result ((first : ℕ) (h : List Name) → Follows first walker.old h → is_over h ≡ true) }
        ensures limits { walker.new.limits ≡ walker.old.limits }
        ensures same { IsSame (Self.state self.old) (Self.state self.new) }
        ensures faults { (Self.state self.old).faults ≤ (Self.state self.new).faults };
}

impl<'a, D: Disk> Walks for Lent<'a, D> {
    fn step(&mut self, walker: &mut Walker, page: &mut Page) -> Option<Visit> {
        walker.step(self.disk, page)
    }
}
