ghost use Rattle.std.specs.Prelude.{◌≡◌, ◌*◌, ◌/◌, ◌+◌, ◌≤◌, length};

use crate::looking::look;
use crate::walk::Walk;
use crate::{Limits, Visit};
use page_core::{NoMemory, Page};
use sector_disk::Disk;
use std::alloc::Global;

/// Returns how many words of 64 bits a set of the blocks below `blocks` takes.
pub fn words_for(blocks: u32) -> usize
    ensures { result ≡ blocks / 64 + 1 }
{
    blocks as usize / 64 + 1
}

/// A reader of the blocks that an image names: each once, in the order of a resume's reads.
#[derive(Drop)]
pub struct Walker {
    limits: Limits,
    named: Vec<u64>,
    walk: Walk,
    ghost room: { limits.blocks ≤ 64 * length named.items },
}

impl Walker {
    ghost use Rattle.std.specs.Prelude.{◌≡◌, ◌≤◌, ◌<◌, ℕ, IfOk, IfNone, IfSome, true, [], List};
    ghost use Rattle.image_walk.specs.Names.{Name, is_over};
    ghost use Rattle.image_walk.specs.Walking.{Follows, StepsTo};

    /// Makes a walker before the first map, which the header names.
    pub fn begin(alloc: Global, limits: &Limits, first: u64) -> Result<Walker, NoMemory>
        ensures limits { IfOk result (λ w. w.limits ≡ limits.now) }
        ensures start { IfOk result (λ w. Follows first w []) }
    {
        let mut named = vec![in alloc; 0; words_for(limits.blocks)].map_err(|_| NoMemory)?;
        let walk = Walk::begin(limits, &mut named, first);
        Ok(Walker {
            limits: *limits,
            named,
            walk,
        })
    }

    /// Makes a second walker at the same place, which goes on independently.
    pub fn fork(&self) -> Result<Walker, NoMemory>
        ensures limits { IfOk result (λ w. w.limits ≡ self.now.limits) }
        ensures place { IfOk result (λ w. (first : ℕ) (h : List Name) → Follows first self.now h → Follows first w h) }
    {
        Ok(Walker {
            limits: self.limits,
            named: self.named.clone().map_err(|_| NoMemory)?,
            walk: self.walk.copy(),
        })
    }

    /// Moves to the next named block, and reads it into `page`. The chain ends after a map that isn't read.
    pub fn step<D: Disk>(&mut self, disk: &mut D, page: &mut Page) -> Option<Visit>
        requires { D.block_count disk.old ≡ self.old.limits.blocks }
        ensures step { IfSome result (λ visit. (first : ℕ) (h : List Name) → Follows first self.old h →
            StepsTo first (D.content disk.old) (D.faults disk.old) (D.faults disk.new) h
            self.old self.new visit page.new) }
        ensures end { IfNone result ((first : ℕ) (h : List Name) → Follows first self.old h → is_over h ≡ true) }
        ensures limits { self.new.limits ≡ self.old.limits }
        ensures content { D.content disk.new ≡ D.content disk.old }
        ensures faults { D.faults disk.old ≤ D.faults disk.new }
        ensures orders { D.orders disk.new ≡ D.orders disk.old }
        ensures blocks { D.block_count disk.new ≡ D.block_count disk.old }
    {
        let asked = self.walk.ask(&self.limits, &self.named)?;
        let answer = look(disk, asked, page);
        self.walk.take(&self.limits, &mut self.named, answer, page)
    }
}
