ghost use Rattle.std.specs.Prelude.{◌≡◌, ◌<◌, ◌≤◌, ℕ, List, true, IfNone, IfSome, OnOk, OnErr};
ghost use Rattle.definitions.specs.Disk.{HasRisen, as_it_reads, block};
ghost use Rattle.image_walk.specs.Names.{Name, is_over};
ghost use Rattle.image_walk.specs.Walking.{Follows, StepsTo};
ghost use Rattle.overlay_disk.specs.DiskState.{IsSame};

use crate::units::Walks;
use image_walk::{Visit, Walker};
use overlay_disk::Original;
use page_core::{Failed, Page};
use std::marker::PhantomData;

/// A disk that is only read, and so keeps what it held.
#[derive(Drop)]
pub struct Source<B: Walks, K: Original> {
    pub below: B,
    original: PhantomData<K>,
    ghost same: { IsSame K.state (B.state below) },
    ghost faults: { K.state.faults ≤ (B.state below).faults },
}

impl<B: Walks, K: Original> Source<B, K> {
    /// Wraps a disk as it is now.
    pub fn over(below: B) -> Source<B, K>
        requires { B.state below ≡ K.state }
    {
        Source {
            below,
            original: PhantomData,
        }
    }

    /// Returns the wrapped disk.
    pub fn into_below(self) -> B
        ensures same { IsSame K.state (B.state result) }
        ensures faults { K.state.faults ≤ (B.state result).faults }
        ensures below { result ≡ self.below }
    {
        let Source { below, .. } = self;
        below
    }

    /// Returns how many blocks the disk has.
    pub fn blocks(&self) -> u32
        ensures { result ≡ K.state.blocks }
    {
        self.below.blocks()
    }

    /// Reads a block. After a failure the contents of `into` are arbitrary.
    pub fn read(&mut self, b: u32, into: &mut Page) -> Result<(), Failed>
        requires { b < K.state.blocks }
        ensures bytes { OnOk result (IfSome K.state.content (λ held. into.new ≡ block (as_it_reads held) b)) }
        ensures cause { OnErr result (HasRisen (B.state self.old.below).faults (B.state self.new.below).faults) }
        ensures faults { (B.state self.old.below).faults ≤ (B.state self.new.below).faults }
    {
        self.below.read(b, into)
    }

    /// Lets a walker continue.
    pub fn step(&mut self, walker: &mut Walker, page: &mut Page) -> Option<Visit>
        requires { K.state.blocks ≡ walker.old.limits.blocks }
        ensures step { IfSome result (λ visit. (first : ℕ) (h : List Name) → Follows first walker.old h →
            StepsTo first K.state.content (B.state self.old.below).faults (B.state self.new.below).faults h
            walker.old walker.new visit page.new) }
        ensures end { IfNone result ((first : ℕ) (h : List Name) → Follows first walker.old h → is_over h ≡ true) }
        ensures limits { walker.new.limits ≡ walker.old.limits }
        ensures faults { (B.state self.old.below).faults ≤ (B.state self.new.below).faults }
    {
        self.below.step(walker, page)
    }
}
