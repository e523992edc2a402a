ghost use Rattle.std.specs.Prelude.{◌≡◌, ◌<◌, ◌≤◌, [], false, IsNone};
ghost use Rattle.std.specs.Option.{ForSome};
ghost use Rattle.std.proofs.Props.{props};
ghost use Rattle.expanded_disk.specs.Keeps.{FailsBelow, HasIndex, IsKept};
ghost use Rattle.expanded_disk.specs.Laid.{blocks_for};
ghost use Rattle.expanded_disk.specs.LaidLaws.{Agrees-prop};

use crate::kept::Kept;
use crate::laying::{Part, blocks_for, laid_map, part_of, plain_header};
use crate::loading::read_page;
use crate::refused::Refused;
use crate::units::{Index, Source, Unit, Walks};
use overlay_disk::Original;
use page_core::{Failed, NoMemory, Page};
use sector_disk::{Disk, Order, Orders};
use std::alloc::Global;

/// A disk whose blocks read as the plain image of a compressed one: the header in block 0, and then its chain. It keeps
/// one unit. A read fails if the disk below fails, or no longer holds what it held.
///
/// Each write is refused, and counts as a fault. The first one shows in the content that it tells, and from then on
/// each read and sync fails, until a restart: so whoever leaves the content as it was, and restarts nothing, has
/// written nothing. Otherwise a sync, a restart and an arm change nothing.
///
/// It tells its content if the disk below does, and no moments.
#[derive(Drop)]
pub struct ExpandedDisk<B: Walks, K: Original> {
    source: Source<B, K>,
    index: Index,
    /// The block of the header on the disk below.
    at: u32,
    kept: Kept,
    calls: u64,
    faults: u64,
    orders: Orders,
    /// The first write that was refused, until a restart.
    refused: Option<Refused>,
    ghost indexed: { HasIndex K.state.content K.state.blocks at index } by { Prim.hlevel (props, Agrees-prop) },
    ghost unit_kept: { IsKept K.state.content index.first index.pages kept.number kept.unit.bytes.items },
    ghost inside: { ForSome refused (λ r. r.block < blocks_for index.pages) },
    ghost cause: { 0 < faults → orders.list ≡ [] → IsNone refused →
        FailsBelow K.state.content K.state.faults (B.state source.below).faults },
}

impl<B: Walks, K: Original> ExpandedDisk<B, K> {
    ghost use Rattle.std.specs.Prelude.{ℕ, IfOk};
    ghost use Rattle.expanded_disk.specs.Keeps.{FailsWith};
    ghost use Rattle.expanded_disk.specs.Laid.{expanded};

    /// Makes a disk over one on which the header block `at` has a whole image with this index.
    pub fn over(
        alloc: Global,
        source: Source<B, K>,
        index: Index,
        at: u32,
    ) -> Result<ExpandedDisk<B, K>, (Source<B, K>, NoMemory)>
        requires { HasIndex K.state.content K.state.blocks at index }
        ensures content { IfOk result (λ e.
            ⟦<ExpandedDisk<B, K> as Disk>⟧.content e ≡ expanded at K.state.content) }
        ensures blocks { IfOk result (λ e.
            ⟦<ExpandedDisk<B, K> as Disk>⟧.block_count e ≡ blocks_for index.pages) }
        ensures faults { IfOk result (λ e. ⟦<ExpandedDisk<B, K> as Disk>⟧.faults e ≡ 0) }
        ensures orders { IfOk result (λ e. ⟦<ExpandedDisk<B, K> as Disk>⟧.orders e ≡ []) }
    {
        let unit = match Unit::new(alloc) {
            Ok(unit) => unit,
            Err(NoMemory) => return Err((source, NoMemory)),
        };
        Ok(ExpandedDisk {
            source,
            index,
            at,
            kept: Kept { unit, number: None },
            calls: 0,
            faults: 0,
            orders: Orders::new(),
            refused: None,
        })
    }

    /// Returns the disk below. If this disk still holds the plain image, and no restart was made, any fault of it came
    /// from the disk below.
    pub fn into_source(self) -> Source<B, K>
        ensures cause { (header : ℕ) →
            ⟦<ExpandedDisk<B, K> as Disk>⟧.content self ≡ expanded header K.state.content →
            ⟦<ExpandedDisk<B, K> as Disk>⟧.orders self ≡ [] →
            FailsWith K.state.content K.state.faults (B.state result.below).faults
            (⟦<ExpandedDisk<B, K> as Disk>⟧.faults self) }
    {
        let ExpandedDisk { source, .. } = self;
        source
    }
}

impl<B: Walks, K: Original> Disk for ExpandedDisk<B, K> {
    ghost use Rattle.std.proofs.lemmas.Bool.{false≢true};
    ghost use Rattle.expanded_disk.specs.Laid.{expanded, marred};
    ghost use Rattle.expanded_disk.specs.LaidLaws.{IsContent-marred};

    ghost block_count = { λ e. blocks_for e.index.pages };

    ghost faults = { λ e. e.faults };

    ghost calls = { λ e. e.calls };

    ghost orders = { λ e. e.orders.list };

    ghost content = { λ e. marred e.refused (expanded e.at K.state.content) };

    ghost tells_moments = { λ _. false };

    ghost moment = { λ _. 0 };

    ghost left_since = { λ _ _ _. ⊥ };

    ghost well_formed = { λ e.
        IsContent-marred K.state.blocks K.state.content e.at e.index e.refused e.indexed };

    ghost tells_content = { λ e tells. absurd (false≢true tells) };

    ghost counts_now = { λ e t v tells. absurd (false≢true tells) };

    ghost only_now = { λ e v tells. absurd (false≢true tells) };

    fn blocks(&self) -> u32 {
        blocks_for(self.index.pages)
    }

    fn read(&mut self, b: u32, into: &mut Page) -> Result<(), Failed> {
        self.calls = self.calls.saturating_add(1);
        if self.refused.is_some() {
            self.faults = self.faults.saturating_add(1);
            return Err(Failed);
        }
        let pages = self.index.pages;
        match part_of(b) {
            Part::Header => {
                *into = plain_header(&self.index.header, pages);
                Ok(())
            }
            Part::Map(map) => {
                *into = laid_map(pages, map);
                Ok(())
            }
            Part::Page(page) => {
                let answer = read_page(&mut self.source, &self.index, &mut self.kept, page, into);
                if answer.is_err() {
                    self.faults = self.faults.saturating_add(1);
                }
                answer
            }
        }
    }

    fn write(&mut self, b: u32, from: &Page) -> Result<(), Failed> {
        self.calls = self.calls.saturating_add(1);
        self.faults = self.faults.saturating_add(1);
        if self.refused.is_some() {
            return Err(Failed);
        }
        self.refused = Some(Refused::new(b, from));
        Err(Failed)
    }

    fn sync(&mut self) -> Result<(), Failed> {
        self.calls = self.calls.saturating_add(1);
        if self.refused.is_some() {
            self.faults = self.faults.saturating_add(1);
            return Err(Failed);
        }
        Ok(())
    }

    fn restart(&mut self, pick: u64) {
        self.refused = None;
        self.orders = self.orders.and(&Order::Restart { pick });
    }

    fn arm(&mut self, first: u32, count: u32, pick: u64) {
        self.orders = self.orders.and(&Order::Arm { first, count, pick });
    }
}
