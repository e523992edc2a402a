//! The snapshot: the page frames that an image saves, and their copies, taken at one moment (create_image,
//! kernel/power/hibernate.c, and swsusp_save, kernel/power/snapshot.c).
#![tactic(auto)]

mod atomic_copy;

ghost use Rattle.std.specs.Prelude.{◌≡◌, ℕ, ◌+◌, ◌-◌, ◌<◌, ◌≤◌, ◌↔◌, [], All, Contains, IsOk, IsErr, IsSome, IfOk};
ghost use Rattle.std.specs.Prelude.{IfErr, IfSome, IfNone, length, map, take};
ghost use Rattle.definitions.specs.Zones.{top};
ghost use Rattle.definitions.specs.Tables.{frame, HasTable};
ghost use Rattle.definitions.specs.Tables.{saveable_frames, free_frames};
ghost use Rattle.snapshot.specs.Taken.{zero_frames, set_over, AreFrameSets, CanBeWritten};
ghost use Rattle.definitions.specs.declared.counts.TheConstants.{SPARE_FRAMES};

use crate::atomic_copy::copy_all;
use frame_arena::Frames;
use frame_sets::{Bitmap, Zones};
use frame_table::{Short, View, count_free, enough, mark_all, pick};
use page_core::{Format, NoMemory};
use std::alloc::Global;
use std::marker::Model;

/// The number of pages of an image: all `n` that it saves, and the `d` of them with a data page.
#[derive(Clone, Copy)]
pub struct Counts {
    pub n: u32,
    pub d: u32,
}

/// The saveable page frames at one moment, the page frames that they are copied to, and the saveable ones that are all
/// zero, if the format leaves those out.
#[derive(Drop)]
pub struct Snapshot {
    origs: Bitmap,
    copies: Bitmap,
    zeros: Bitmap,
    format: Format,
}

impl Model for Snapshot {
    ghost use Rattle.snapshot.specs.Taken.{Taken};

    ghost Value = { Taken };

    ghost use Rattle.snapshot.specs.Kept.{taken, IsKept};

    ghost view = { taken };

    ghost invariant = { IsKept };
}

impl Snapshot {
    /// Makes a snapshot of nothing over these zones.
    pub fn create(alloc: Global, zones: &Zones) -> Result<Snapshot, NoMemory>
        ensures { IfOk result (λ s. s ≡ record {
          zones = zones.now;
          format = Format.Plain;
          origs = [];
          copies = [];
          zeros = [];
        }) }
    {
        Ok(Snapshot {
            origs: Bitmap::create(alloc, zones)?,
            copies: Bitmap::create(alloc, zones)?,
            zeros: Bitmap::create(alloc, zones)?,
            format: Format::Plain,
        })
    }

    /// Marks the saveable page frames and those of them that are all zero, and counts them. Earlier copies are not
    /// kept. Refuses if too few page frames are free for the copies and the writing.
    pub fn count(&mut self, view: &View, format: Format) -> Result<Counts, Short>
        requires table { HasTable view.now.frames.now view.now.table (top view.now.zones.now) }
        requires within { top view.now.zones.now ≤ length view.now.frames.now }
        requires zones { self.old.zones ≡ view.now.zones.now }

        ensures sets { let origs = saveable_frames view.now.zones.now view.now.table view.now.frames.now in
            self.new ≡ record {
              zones = self.old.zones;
              format = format;
              origs = origs;
              copies = [];
              zeros = zero_frames format view.now.frames.now origs;
            } }
        ensures valid { AreFrameSets self.new }
        ensures enough { IsOk result ↔ (length
            (saveable_frames view.now.zones.now view.now.table view.now.frames.now) + SPARE_FRAMES
            ≤ length (free_frames view.now.zones.now view.now.table view.now.frames.now)) }
        ensures short { IsErr result ↔ (length (free_frames view.now.zones.now view.now.table view.now.frames.now)
            < length (saveable_frames view.now.zones.now view.now.table view.now.frames.now) + SPARE_FRAMES) }
        ensures counts { IfOk result (λ counts. let origs = saveable_frames view.now.zones.now view.now.table
            view.now.frames.now in
            counts ≡ record {
              n = length origs;
              d = length origs - length (zero_frames format view.now.frames.now origs);
            }) }
        ensures tells { IfErr result (λ short. short ≡ record {
          free = length (free_frames view.now.zones.now view.now.table view.now.frames.now);
          need = length (saveable_frames view.now.zones.now view.now.table view.now.frames.now) + SPARE_FRAMES;
        }) }
    {
        self.format = format;
        self.copies.clear_all();
        mark_all(view, &mut self.origs);
        let n = self.origs.len();
        mark_zeros(view.frames, format, &self.origs, &mut self.zeros);
        let zeros = self.zeros.len();
        enough(count_free(view), n)?;
        Ok(Counts { n, d: n - zeros })
    }

    /// Copies the originals that were counted into the lowest free page frames.
    pub fn copy(&mut self, frames: &mut Frames, zones: &Zones, table: u32)
        requires table { HasTable frames.old table (top zones.now) }
        requires within { top zones.now ≤ length frames.old }
        requires zones { self.old.zones ≡ zones.now }
        requires counted { self.old.origs ≡ saveable_frames zones.now table frames.old }
        requires room { length self.old.origs ≤ length (free_frames zones.now table frames.old) }

        ensures sets { self.new ≡ record
            self.old { copies = take (length self.old.origs) (free_frames zones.now table frames.old) } }
        ensures copied { map (frame frames.new) self.new.copies ≡ map (frame frames.old) self.old.origs }
        ensures originals { map (frame frames.new) self.old.origs ≡ map (frame frames.old) self.old.origs }
        ensures others { (p : ℕ) → (Contains self.new.copies p → ⊥) → frame frames.new p ≡ frame frames.old p }
        ensures size { length frames.new ≡ length frames.old }
        ensures writable { CanBeWritten self.new frames.new }
    {
        let n = self.origs.len();
        let view = View {
            frames,
            zones,
            table,
        };
        pick(&view, n, &mut self.copies);
        copy_all(frames, &self.origs, &self.copies);
    }

    /// Returns the saveable page frames of the last count.
    pub fn origs(&self) -> &Bitmap
        ensures { result.now ≡ set_over self.now.zones self.now.origs }
    {
        &self.origs
    }

    /// Returns the page frames that the originals were copied to since the last count. The k-th has the page of the
    /// k-th original.
    pub fn copies(&self) -> &Bitmap
        ensures { result.now ≡ set_over self.now.zones self.now.copies }
    {
        &self.copies
    }

    /// Returns the originals that were all zero at the last count, or None if its format was plain.
    pub fn zeros(&self) -> Option<&Bitmap>
        ensures skips { IsSome result ↔ (self.now.format ≡ Format.SkipZeros) }
        ensures set { IfSome result (λ set. set.now ≡ set_over self.now.zones self.now.zeros) }
        ensures plain { IfNone result (self.now.zeros ≡ []) }
    {
        match self.format {
            Format::Plain => None,
            Format::SkipZeros => Some(&self.zeros),
        }
    }
}

/// Makes `zeros` the originals that are all zero, or in the plain format the empty set.
fn mark_zeros(frames: &Frames, format: Format, origs: &Bitmap, zeros: &mut Bitmap)
    requires zones { zeros.old.zones ≡ origs.now.zones }
    requires within { All (λ p. p < length frames.now) origs.now.members }
    ensures { zeros.new ≡ record zeros.old { members = zero_frames format frames.now origs.now.members } }
{
    zeros.clear_all();
    if format == Format::Plain {
        return;
    }
    for p in origs.iter() {
        if frames.is_zero(p) {
            zeros.set(p);
        }
    }
}
