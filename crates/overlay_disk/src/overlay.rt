ghost use Rattle.std.specs.Prelude.{◌≡◌, ◌+◌, ◌<◌, ◌≤◌, true, false};
ghost use Rattle.std.specs.Option.{ForSome};
ghost use Rattle.overlay_disk.specs.DiskState.{IsSame, RisesBelowLast};

use crate::kept::Kept;
use crate::room::{has_room, page_of};
use crate::{Original, ReadOnly};
use page_core::{Failed, NoMemory, Page};
use sector_disk::{Disk, Order, Orders};
use std::marker::PhantomData;

/// A disk over one that is only read from. It has memory for one block, the first that is written: a write of any other
/// fails, and counts as a fault. A block that was written is read from memory, every other from below. A sync, a
/// restart and an arm change nothing.
///
/// It tells its content if the disk below does. It tells no moments.
#[derive(Drop)]
pub struct Overlay<B: ReadOnly, K: Original> {
    below: B,
    kept: Option<Kept>,
    calls: u64,
    faults: u64,
    orders: Orders,
    refused: bool,
    original: PhantomData<K>,
    ghost inside: { ForSome kept (λ k. k.block < K.state.blocks) },
    ghost same: { IsSame K.state (B.state below) },
    ghost calls_below: { (B.state below).calls ≤ K.state.calls + calls },
    ghost faults_below: { K.state.faults ≤ (B.state below).faults },
    ghost cause: { 0 < faults → refused ≡ false → RisesBelowLast K.state.faults (B.state below).faults },
    ghost refused_counts: { refused ≡ true → 0 < faults },
}

impl<B: ReadOnly, K: Original> Overlay<B, K> {
    ghost use Rattle.std.specs.Prelude.{None, OnOk, OnErr};
    ghost use Rattle.definitions.specs.Disk.{HasRisen};
    ghost use Rattle.overlay_disk.specs.Overlaid.{content_over};

    /// Puts an overlay, which keeps no block yet, over a disk.
    pub fn over(below: B) -> Overlay<B, K>
        requires { B.state below ≡ K.state }
        ensures content { ⟦<Overlay<B, K> as Disk>⟧.content result ≡ content_over None (B.state below).content }
        ensures blocks { ⟦<Overlay<B, K> as Disk>⟧.block_count result ≡ (B.state below).blocks }
        ensures calls { ⟦<Overlay<B, K> as Disk>⟧.calls result ≡ 0 }
        ensures faults { ⟦<Overlay<B, K> as Disk>⟧.faults result ≡ 0 }
    {
        Overlay {
            below,
            kept: None,
            calls: 0,
            faults: 0,
            orders: Orders::new(),
            refused: false,
            original: PhantomData,
        }
    }

    /// Returns the disk below. The error says that memory was lacking for some block that was to be written.
    pub fn into_below(self) -> (B, Result<(), NoMemory>)
        ensures same { IsSame K.state (B.state result.0) }
        ensures calls { (B.state result.0).calls ≤ K.state.calls + ⟦<Overlay<B, K> as Disk>⟧.calls self }
        ensures faults { K.state.faults ≤ (B.state result.0).faults }
        ensures cause { OnOk result.1 (0 < ⟦<Overlay<B, K> as Disk>⟧.faults self →
            HasRisen K.state.faults (B.state result.0).faults) }
        ensures counted { OnErr result.1 (0 < ⟦<Overlay<B, K> as Disk>⟧.faults self) }
    {
        let Overlay { below, refused, .. } = self;
        if refused {
            (below, Err(NoMemory))
        } else {
            (below, Ok(()))
        }
    }
}

impl<B: ReadOnly, K: Original> Disk for Overlay<B, K> {
    ghost use Rattle.std.proofs.lemmas.Bool.{false≢true};
    ghost use Rattle.overlay_disk.specs.Overlaid.{content_over};
    ghost use Rattle.overlay_disk.specs.OverlaidLaws.{IsContent-over};

    ghost block_count = { λ o. (B.state o.below).blocks };

    ghost faults = { λ o. o.faults };

    ghost calls = { λ o. o.calls };

    ghost orders = { λ o. o.orders.list };

    ghost content = { λ o. content_over o.kept (B.state o.below).content };

    ghost tells_moments = { λ _. false };

    ghost moment = { λ _. 0 };

    ghost left_since = { λ _ _ _. ⊥ };

    ghost well_formed = { λ o.
        IsContent-over (B.state o.below).blocks o.kept (B.state o.below).content (B.well_formed o.below) };

    ghost tells_content = { λ o tells. absurd (false≢true tells) };

    ghost counts_now = { λ o t v tells. absurd (false≢true tells) };

    ghost only_now = { λ o v tells. absurd (false≢true tells) };

    fn blocks(&self) -> u32 {
        self.below.blocks()
    }

    fn read(&mut self, b: u32, into: &mut Page) -> Result<(), Failed> {
        self.calls = self.calls.saturating_add(1);
        match page_of(&self.kept, b) {
            Some(page) => {
                *into = Page::from_bytes(page.as_bytes());
                Ok(())
            }
            None => {
                let answer = self.below.read(b, into);
                if answer.is_err() {
                    self.faults = self.faults.saturating_add(1);
                }
                answer
            }
        }
    }

    fn write(&mut self, b: u32, from: &Page) -> Result<(), Failed> {
        self.calls = self.calls.saturating_add(1);
        if has_room(&self.kept, b) {
            self.kept = Some(Kept::new(b, from));
            return Ok(());
        }
        self.faults = self.faults.saturating_add(1);
        self.refused = true;
        Err(Failed)
    }

    fn sync(&mut self) -> Result<(), Failed> {
        self.calls = self.calls.saturating_add(1);
        Ok(())
    }

    fn restart(&mut self, pick: u64) {
        self.orders = self.orders.and(&Order::Restart { pick });
    }

    fn arm(&mut self, first: u32, count: u32, pick: u64) {
        self.orders = self.orders.and(&Order::Arm { first, count, pick });
    }
}
